//! Planes of slots, over their blocks.
ghost use Rattle.std.specs.Prelude.{◌≡◌, ◌≤◌, [], drop, length, map, take, vec_capacity};
ghost use Rattle.graph_steps.specs.Steps.{capacities};
ghost use Rattle.graph_run.specs.Blocks.{block_size, lent_size};

use graph_steps::Plane;
use pixel_pool::Block;

/// Adds a plane for each slot to `planes`, which must be empty. The slot's block moves to it.
pub fn add_slots(blocks: &mut [Block], planes: &mut Vec<Plane>)
    requires none { planes.old.items ≡ [] }
    requires room { length blocks.old ≤ vec_capacity planes.old }
    ensures sizes { capacities planes.new.items ≡ map block_size blocks.old }
    ensures lent_sizes { map lent_size blocks.new ≡ map lent_size blocks.old }
    ensures capacity { vec_capacity planes.new ≡ vec_capacity planes.old }
{
    for k in 0..blocks.len() {
        planes.push_reserved(Plane::of_block(blocks[k].lift()));
    }
}

/// Moves the block of each slot's plane back into `blocks`. The planes of the slots come first.
pub fn return_blocks(blocks: &mut [Block], planes: &mut [Plane])
    requires count { length blocks.old ≤ length planes.old }
    requires sizes { take (length blocks.old) (capacities planes.old) ≡ map lent_size blocks.old }
    ensures back { map block_size blocks.new ≡ take (length blocks.old) (capacities planes.old) }
    ensures lent_sizes { map lent_size blocks.new ≡ map lent_size blocks.old }
    ensures others { drop (length blocks.old) planes.new
        ≡ drop (length blocks.old) planes.old }
{
    for k in 0..blocks.len() {
        blocks[k].put(planes[k].give());
    }
}
