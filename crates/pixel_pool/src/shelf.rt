//! The blocks of one format.
ghost use Rattle.std.specs.Prelude.{◌≡◌, ℕ, ◌+◌, ◌/◌, ◌≤◌, ◌<◌, [], length, replicate, IfOk, OnErr};
ghost use Rattle.std.specs.Prelude.{OnOk};
ghost use Rattle.std.specs.Prelude.{IsOk, IsTrue, ◌↔◌, IfSome, IfNone, vec_capacity, slice_index};
ghost use Rattle.pixel_pool.specs.Classes.{class_count, class_size, FitsIn};
ghost use Rattle.pixel_pool.specs.Free.{HasFree, HasBlockFor, LendsSmallest, IsTrim, IsFewer};
ghost use Rattle.pixel_pool.specs.Free.{LosesLargestFirst, LosesNoMore, DropsLargest};
ghost use Rattle.pixel_pool.specs.Free.{free_count, without_one, GetsFree};
ghost use Rattle.pixel_pool.specs.Shelf.{block_count};

use crate::classes::{CLASSES, capacity_for, class_of};
use crate::stacks::{EMPTY, Stack, largest, smallest};
use slab::Slab;
use std::alloc::{AllocError, Global};
use std::marker::Model;

/// Blocks of at most this capacity, in samples, are never shrunk. It is 4,096 bytes in the widest
/// format.
const SMALL_CAPACITY: usize = 1024;

/// The greatest total capacity, in samples, of the free blocks that `trim` keeps.
const KEPT_CAPACITY: u128 = 67_108_864;

/// The greatest number of free blocks that `trim` keeps. One client can have this many images: 16
/// in each of 1,024 delays.
const KEPT_BLOCKS: usize = 16_384;

/// A free block: its memory, its class, the class's size, and the part of the class's stack below
/// this block.
#[derive(Drop)]
struct Free<T> {
    samples: Vec<T>,
    class: usize,
    capacity: usize,
    under: Stack,
}

/// The blocks of one format: the number of lent blocks, and the free blocks in a slab, with one
/// stack for each class. `capacity` is the total size of the free blocks, in samples. The size of a
/// block is that of its class.
#[derive(Drop)]
pub struct Shelf<T> {
    alloc: Global,
    lent: usize,
    free: Slab<Free<T>>,
    stacks: [Stack; CLASSES],
    capacity: u128,
}

impl<T> Model for Shelf<T> {
    ghost use Rattle.std.specs.Prelude.{◌≡◌, ◌+◌, ◌≤◌};
    ghost use Rattle.slab.specs.Slab.{slab_len};
    ghost use Rattle.pixel_pool.specs.Classes.{class_count};
    ghost use Rattle.pixel_pool.specs.Free.{samples_below};
    ghost use Rattle.pixel_pool.specs.Shelf.{ShelfValue, lengths, AreStacks};

    ghost Value = { ShelfValue };

    ghost view = { λ s. record { lent = s.lent; free = lengths s.stacks } };

    // The slab has a reserved entry for each lent block. Giving back a block thus allocates
    // nothing.
    ghost invariant = { λ s. (s.lent + slab_len s.free ≤ s.free.capacity)
        × AreStacks s.stacks s.free
        × (s.capacity ≡ samples_below (lengths s.stacks) class_count) };
}

impl<T: Copy + Drop> Shelf<T> {
    /// Returns a shelf without blocks. Allocates nothing.
    pub fn new(alloc: Global) -> Shelf<T>
        ensures { result ≡ record { lent = 0; free = replicate class_count 0 } }
    {
        Shelf {
            alloc,
            lent: 0,
            free: Slab::new(alloc),
            stacks: [EMPTY; CLASSES],
            capacity: 0,
        }
    }

    /// Returns the number of lent blocks.
    pub fn lent(&self) -> usize
        ensures { result ≡ self.now.lent }
    {
        self.lent
    }

    /// Returns the number of blocks, lent and free.
    pub fn blocks(&self) -> usize
        ensures { result ≡ block_count self.now }
    {
        let _fit = self.free.capacity();
        self.lent + self.free.len()
    }

    /// Returns the number of free blocks.
    pub fn free(&self) -> usize
        ensures { result ≡ free_count self.now.free }
    {
        self.free.len()
    }

    /// Lends a block of `count` samples of any value. Looks at no more than one block of each
    /// class. An error means that there is no memory for a new block; the shelf is then unchanged.
    pub fn take(&mut self, zero: T, count: usize) -> Result<Vec<T>, AllocError>
        ensures count { IfOk result (λ samples. length samples.items ≡ count) }
        ensures capacity { IfOk result (λ samples. FitsIn count (vec_capacity samples)) }
        ensures lent { OnOk result (self.new.lent ≡ self.old.lent + 1) }
        ensures smallest { OnOk result (LendsSmallest count self.old.free self.new.free) }
        ensures most { block_count self.new ≤ block_count self.old + 1 }
        ensures none { HasBlockFor self.old.free count →
            block_count self.new ≡ block_count self.old }
        ensures fits { HasBlockFor self.old.free count → IsOk result }
        ensures err { OnErr result (self.new ≡ self.old) }
    {
        match smallest(&self.stacks, count) {
            Some(class) => Ok(resized(self.lend(class), zero, count)),
            None => self.add(zero, count),
        }
    }

    /// Adds a block of `count` samples and lends it. Reserves an entry for it among the free
    /// blocks, so that giving it back allocates nothing.
    fn add(&mut self, zero: T, count: usize) -> Result<Vec<T>, AllocError>
        ensures count { IfOk result (λ samples. length samples.items ≡ count) }
        ensures capacity { IfOk result (λ samples. FitsIn count (vec_capacity samples)) }
        ensures ok { OnOk result
            (self.new ≡ record { lent = self.old.lent + 1; free = self.old.free }) }
        ensures err { OnErr result (self.new ≡ self.old) }
    {
        let samples = new_samples(self.alloc, zero, count)?;
        let lent = self.lent.checked_add(1).ok_or(AllocError)?;
        self.free.reserve(lent)?;
        self.lent = lent;
        Ok(samples)
    }

    /// Lends the top block of a class's stack.
    fn lend(&mut self, class: usize) -> Vec<T>
        requires { HasFree self.old.free class }
        ensures capacity { class_size class ≤ vec_capacity result }
        ensures value { self.new ≡ record {
          lent = self.old.lent + 1;
          free = without_one self.old.free class;
        } }
        ensures count { free_count self.new.free + 1 ≡ free_count self.old.free }
    {
        let _fit = self.free.capacity();
        let block = self.free.remove(self.stacks[class].top);
        self.stacks[class] = block.under;
        self.capacity -= block.capacity as u128;
        self.lent += 1;
        block.samples
    }

    /// Takes back a lent block, which becomes free. Its samples are unchanged.
    pub fn give_back(&mut self, samples: Vec<T>)
        requires { 1 ≤ self.old.lent }
        ensures lent { self.new.lent + 1 ≡ self.old.lent }
        ensures free { GetsFree (vec_capacity samples) self.old.free self.new.free }
        ensures samples { (count : ℕ) → FitsIn count (vec_capacity samples) → count ≤ 67108864 →
            HasBlockFor self.new.free count }
        ensures blocks { block_count self.new ≡ block_count self.old }
    {
        let _fit = self.free.capacity();
        let (class, capacity) = class_of(samples.capacity());
        let under = self.stacks[class];
        let block = Free {
            samples,
            class,
            capacity,
            under,
        };
        let top = self.free.insert_reserved(block);
        self.stacks[class] = Stack {
            top,
            len: under.len + 1,
        };
        self.capacity += capacity as u128;
        self.lent -= 1;
    }

    /// Drops all free blocks, which returns their memory to the system.
    pub fn drop_free(&mut self)
        ensures { self.new ≡ record { lent = self.old.lent; free = replicate class_count 0 } }
    {
        self.free.clear();
        self.stacks = [EMPTY; CLASSES];
        self.capacity = 0;
    }

    /// Drops free blocks, the largest first, until the number and the total capacity of the rest
    /// are within the limits.
    pub fn trim(&mut self)
        ensures lent { self.new.lent ≡ self.old.lent }
        ensures trim { IsTrim self.new.free }
        ensures fewer { IsFewer self.new.free self.old.free }
        ensures kept { IsTrim self.old.free → self.new ≡ self.old }
        ensures largest { LosesLargestFirst self.old.free self.new.free }
        ensures no_more { LosesNoMore self.old.free self.new.free }
    {
        while !self.is_trim() {
            self.drop_largest();
        }
    }

    /// Checks whether the number of free blocks and their total capacity are within the limits.
    fn is_trim(&self) -> bool
        ensures { IsTrue result ↔ IsTrim self.now.free }
    {
        self.free.len() <= KEPT_BLOCKS && self.capacity <= KEPT_CAPACITY
    }

    /// Drops a free block of the greatest class that has any. A limit must be exceeded, so at least
    /// one block is free.
    #[tactic(auto, using(crate::proofs::FreeLemmas::none_is_trim))]
    fn drop_largest(&mut self)
        requires { IsTrim self.old.free → ⊥ }
        ensures lent { self.new.lent ≡ self.old.lent }
        ensures count { free_count self.new.free + 1 ≡ free_count self.old.free }
        ensures fewer { IsFewer self.new.free self.old.free }
        ensures classes { length self.old.free ≡ class_count }
        ensures largest { DropsLargest self.old.free self.new.free }
    {
        match largest(&self.stacks) {
            Some(class) => {
                drop(self.lend(class));
                self.lent -= 1;
            }
            None => unreachable!(),
        }
    }
}

/// Returns new memory with `count` samples. Its capacity is at least the size of the smallest class
/// that fits them, if there is such a class.
fn new_samples<T: Copy + Drop>(alloc: Global, zero: T, count: usize) -> Result<Vec<T>, AllocError>
    ensures count { IfOk result (λ samples. length samples.items ≡ count) }
    ensures capacity { IfOk result (λ samples. FitsIn count (vec_capacity samples)) }
{
    let mut samples = Vec::with_capacity(alloc, capacity_for(count))?;
    let _fits = samples.resize(count, zero);
    Ok(samples)
}

/// Returns the same memory with `count` samples, which must fit. Memory that is far too large is
/// shrunk to the capacity that a new block would have, unless the system refuses.
fn resized<T: Copy + Drop>(mut samples: Vec<T>, zero: T, count: usize) -> Vec<T>
    requires { count ≤ vec_capacity samples }
    ensures count { length result.items ≡ count }
    ensures capacity { FitsIn count (vec_capacity samples) → FitsIn count (vec_capacity result) }
{
    let _fits = samples.resize(count, zero);
    if is_far_too_large(samples.capacity(), count) {
        samples.shrink_to(capacity_for(count));
    }
    samples
}

/// Checks whether a capacity is above `SMALL_CAPACITY`, and whether half of the capacity, rounded
/// down, is above the requested number of samples.
fn is_far_too_large(capacity: usize, count: usize) -> bool
    ensures { IsTrue result ↔ (SMALL_CAPACITY < capacity) × (count < capacity / 2) }
{
    capacity > SMALL_CAPACITY && capacity / 2 > count
}
