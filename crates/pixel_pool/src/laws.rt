//! Facts about sequences of calls on a pool.
ghost use Rattle.std.specs.Prelude.{◌≡◌, ◌≤◌, ◌+◌, length, IfOk, OnOk};
ghost use Rattle.vx_base.specs.Picture.{values, samples_format};
ghost use Rattle.pixel_pool.specs.Free.{HasBlockFor};
ghost use Rattle.pixel_pool.specs.Pool.{free_of, blocks_of, Lends, KeepsLent};

use crate::block::Block;
use crate::pool::Pool;
use std::alloc::AllocError;
use vx_base::Format;

/// Takes a block, gives it back, and takes one again. The second `take` can't fail and adds no
/// block, so the two calls add at most one block.
pub fn taken_again(pool: &mut Pool, format: Format, count: usize) -> Result<Block, AllocError>
    requires { count ≤ 67108864 }
    ensures format { IfOk result (λ taken. samples_format taken.samples ≡ format) }
    ensures count { IfOk result (λ taken. length (values taken.samples) ≡ count) }
    ensures lends { OnOk result (Lends pool.old pool.new format) }
    ensures blocks { blocks_of pool.new format ≤ blocks_of pool.old format + 1 }
{
    taken_and_given_back(pool, format, count)?;
    let Ok(again) = pool.take(format, count) else {
        unreachable!()
    };
    Ok(again)
}

/// Takes a block and gives it back. The number of lent blocks of each format is unchanged. On
/// success there is then a free block with `count` samples.
pub fn taken_and_given_back(pool: &mut Pool, format: Format, count: usize) -> Result<(), AllocError>
    requires { count ≤ 67108864 }
    ensures lent { KeepsLent pool.old pool.new }
    ensures blocks { blocks_of pool.new format ≤ blocks_of pool.old format + 1 }
    ensures samples { OnOk result (HasBlockFor (free_of pool.new format) count) }
{
    let block = pool.take(format, count)?;
    pool.give_back(block);
    Ok(())
}
