//! Requests that create and age delays, and register delays with graphs. OpenVX 1.3, "Object:
//! Delay".
ghost use Rattle.std.specs.Prelude.{◌≡◌, Err, IfErr, OnOk};
ghost use Rattle.client_model.specs.Delays.{create_delay, age_delay, register_auto_aging};
ghost use Rattle.client_model.specs.States.{KeepsLimits};
ghost use Rattle.object_table.specs.Blocks.{Balances, KeepsBlocks};
ghost use Rattle.client_contexts.specs.Lookup.{NameGraphAndDelay};
ghost use Rattle.client_contexts.specs.Steps.{ComesTo, MayComeTo, IsContext, Keeps};

use crate::fault::RequestFault;
use crate::lookup::{find_image, find_named};
use crate::new_objects::{hold_images, require_capacity};
use client_model::{Limits, Refusal, Reply};
use object_table::{Content, Delay, Object, Table};
use pixel_pool::Pool;
use vx_base::{Kind, ObjRef, SlotCount};

/// Creates a delay with `slots` new images, of the size and format of the image that `exemplar`
/// names.
pub fn create_delay(
    table: &mut Table,
    pool: &mut Pool,
    limits: Limits,
    exemplar: ObjRef,
    slots: SlotCount,
) -> Result<Reply, RequestFault>
    ensures comes { MayComeTo (create_delay limits table.old exemplar slots)
        table.old table.new result }
    ensures within_limits { KeepsLimits limits table.old → KeepsLimits limits table.new }
    ensures balances { Balances pool.old pool.new table.old.objects table.new.objects }
{
    let desc = find_image(table, exemplar)?.desc();
    require_capacity(table, limits, usize::from(slots.get()) * desc.byte_count())?;
    let delay = Delay::new(table.allocator(), pool, desc, slots)?;
    hold_images(table, pool, limits, Object::new(Content::Delay(delay)))
}

/// Ages a delay: each image moves to the next slot, and the image in the last slot to slot 0.
#[tactic(auto, using(crate::proofs::BlockLemmas::age_keeps_blocks))]
pub fn age_delay(table: &mut Table, name: u32) -> Result<Reply, Refusal>
    requires { IsContext table.old }
    ensures comes { ComesTo (age_delay table.old name) table.old table.new result }
    ensures within_limits { Keeps table.old table.new }
    ensures blocks { KeepsBlocks table.old.objects table.new.objects }
{
    find_named(table, name, Kind::Delay)?;
    table.age(name);
    Ok(Reply::Empty)
}

/// Registers a delay with a graph. From then on the delay ages after each run of the graph.
#[tactic(auto, using(crate::proofs::BlockLemmas::register_keeps_blocks))]
pub fn register_auto_aging(table: &mut Table, graph: u32, delay: u32) -> Result<Reply, RequestFault>
    requires { IsContext table.old }
    ensures comes { MayComeTo (register_auto_aging table.old graph delay)
        table.old table.new result }
    ensures within_limits { Keeps table.old table.new }
    ensures blocks { KeepsBlocks table.old.objects table.new.objects }
{
    find_graph_and_delay(table, graph, delay)?;
    table.register(graph, delay)?;
    Ok(Reply::Empty)
}

/// Checks that `graph` names a graph and `delay` a delay. Names that aren't live are refused first,
/// then objects of the wrong kind.
fn find_graph_and_delay(table: &Table, graph: u32, delay: u32) -> Result<(), Refusal>
    ensures ok { OnOk result (NameGraphAndDelay table.now.objects graph delay) }
    ensures err { IfErr result (λ refusal.
        register_auto_aging table.now graph delay ≡ Err refusal) }
{
    let Ok(second) = table.get(delay) else {
        return Err(Refusal::InvalidReference);
    };
    find_named(table, graph, Kind::Graph)?;
    if second.kind() == Kind::Delay {
        Ok(())
    } else {
        Err(Refusal::InvalidType)
    }
}
