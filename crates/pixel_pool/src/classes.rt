//! The size classes of blocks.
ghost use Rattle.std.specs.Prelude.{◌≡◌, ℕ, ◌<◌, ◌≤◌, ◌^◌};
ghost use Rattle.pixel_pool.specs.Classes.{class_count, class_size, class_step, IsClassOf};
ghost use Rattle.pixel_pool.specs.Classes.{FitsIn};

/// The number of classes. The size of the last is 67,108,864 samples, as many as the largest image
/// has.
pub const CLASSES: usize = 193;

/// Returns the difference between the sizes of the next class and this one, in samples.
#[tactic(auto, using(crate::proofs::ClassLemmas::step_small))]
pub fn step(class: usize) -> usize
    requires { class < class_count }
    ensures value { result ≡ class_step class }
    ensures small { result ≤ 2 ^ 23 }
{
    1 << (class / 8).saturating_sub(1)
}

/// Returns the class of a block with this capacity, in samples, and the size of the class. The
/// class is the greatest one whose size isn't above the capacity.
#[tactic(auto, using(crate::proofs::ClassLemmas::capacity_steps))]
pub fn class_of(capacity: usize) -> (usize, usize)
    ensures class { IsClassOf capacity result.0 }
    ensures capacity { result.1 ≡ class_size result.0 }
{
    let mut class = 0;
    let mut within = 0;
    let mut next = 1;
    while class + 1 < CLASSES && next <= capacity {
        class += 1;
        within = next;
        next += step(class);
    }
    (class, within)
}

/// Returns the capacity of a new block for `count` samples: the size of the smallest class that
/// fits them, or `count` if no class does.
#[tactic(auto, using(crate::proofs::ClassLemmas::capacity_steps))]
pub fn capacity_for(count: usize) -> usize
    ensures enough { count ≤ result }
    ensures class { FitsIn count result }
    ensures least { (class : ℕ) → class < class_count → count ≤ class_size class →
        result ≤ class_size class }
{
    let mut capacity = 0;
    for class in 0..CLASSES {
        if count <= capacity {
            return capacity;
        }
        capacity += step(class);
    }
    count
}
