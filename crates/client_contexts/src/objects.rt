//! Requests that release objects of any kind.
ghost use Rattle.object_table.specs.Blocks.{blocks_in, LendsAtLeast, Balances};
ghost use Rattle.client_model.specs.Objects.{release};
ghost use Rattle.client_contexts.specs.Steps.{ComesTo, IsContext, Keeps};

use client_model::{Refusal, Reply};
use object_table::Table;
use pixel_pool::Pool;

/// Releases an object's name. If the object is a graph, its nodes are dropped with it. Objects that
/// are then no longer held are dropped, and their blocks are given back to the pool.
pub fn release(table: &mut Table, pool: &mut Pool, name: u32) -> Result<Reply, Refusal>
    requires context { IsContext table.old }
    requires owns { LendsAtLeast pool.old (blocks_in table.old.objects) }
    ensures comes { ComesTo (release table.old name) table.old table.new result }
    ensures within_limits { Keeps table.old table.new }
    ensures balances { Balances pool.old pool.new table.old.objects table.new.objects }
{
    match table.release(name, pool) {
        Ok(()) => Ok(Reply::Empty),
        Err(_) => Err(Refusal::InvalidReference),
    }
}
