//! Stacks of free blocks, one for each class.
ghost use Rattle.std.specs.Prelude.{◌≡◌, ℕ, ◌≤◌, IfSome, IfNone};
ghost use Rattle.pixel_pool.specs.Classes.{class_size};
ghost use Rattle.pixel_pool.specs.Free.{HasFree, HasBlockFor, free_count};
ghost use Rattle.pixel_pool.specs.Shelf.{lengths};

use crate::classes::{CLASSES, step};

/// A stack of free blocks of one class: the slab key of the top block, and the number of blocks.
/// Each free block holds the stack below it.
#[derive(Clone, Copy)]
pub struct Stack {
    pub top: usize,
    pub len: usize,
}

/// The empty stack.
pub const EMPTY: Stack = Stack { top: 0, len: 0 };

/// Returns the smallest class with a free block that fits `count` samples, if there is one.
#[tactic(auto, using(crate::proofs::FreeLemmas::stack_steps))]
pub fn smallest(stacks: &[Stack; CLASSES], count: usize) -> Option<usize>
    ensures free { IfSome result (HasFree (lengths stacks.now)) }
    ensures fits { IfSome result (λ class. count ≤ class_size class) }
    ensures least { IfSome result (λ class. (other : ℕ) → HasFree (lengths stacks.now) other →
        count ≤ class_size other → class ≤ other) }
    ensures none { IfNone result ((other : ℕ) → HasFree (lengths stacks.now) other →
        count ≤ class_size other → ⊥) }
{
    let mut capacity = 0;
    for class in 0..CLASSES {
        if count <= capacity && stacks[class].len > 0 {
            return Some(class);
        }
        capacity += step(class);
    }
    None
}

/// Returns the greatest class with a free block, if there is one.
#[tactic(auto, using(crate::proofs::FreeLemmas::stack_steps))]
pub fn largest(stacks: &[Stack; CLASSES]) -> Option<usize>
    ensures free { IfSome result (HasFree (lengths stacks.now)) }
    ensures greatest { IfSome result (λ class. (other : ℕ) → HasFree (lengths stacks.now) other →
        other ≤ class) }
    ensures none { IfNone result (free_count (lengths stacks.now) ≡ 0) }
{
    let mut found = None;
    for class in 0..CLASSES {
        if stacks[class].len > 0 {
            found = Some(class);
        }
    }
    found
}
