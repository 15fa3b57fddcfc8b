//! Requests that create graphs and virtual images, add and remove nodes, and verify and run graphs.
//! OpenVX 1.3, "Object: Graph".
ghost use Rattle.std.specs.Prelude.{◌≡◌, ◌≢◌, true, false, Some, OnOk, IfErr};
ghost use Rattle.vx_base.specs.Graph.{new_graph};
ghost use Rattle.vx_base.specs.Object.{GraphObject};
ghost use Rattle.client_model.specs.Graphs.{create_virtual_image, add_node, remove_node};
ghost use Rattle.client_model.specs.Graphs.{verify_graph, process_graph};
ghost use Rattle.client_model.specs.Images.{create};
ghost use Rattle.client_model.specs.States.{KeepsLimits};
ghost use Rattle.object_table.specs.Blocks.{blocks_in, LendsAtLeast, Balances, KeepsBlocks};
ghost use Rattle.client_contexts.specs.Kept.{AreKept, kept_within, verified_in, StayKept};
ghost use Rattle.client_contexts.specs.Steps.{ComesTo, MayComeTo, WantsMemory, IsContext, Keeps};

use crate::fault::RequestFault;
use crate::kept::KeptGraph;
use crate::lookup::{find_graph_for, find_named};
use crate::new_objects::{hold, require_capacity};
use buffer_plan::Plan;
use client_model::{Limits, Refusal, Reply};
use graph_run::{Workspace, run_scheduled, schedule_of, verify_in};
use graph_verify::Graph;
use object_table::{Content, Object, Table};
use pixel_pool::Pool;
use std::alloc::Global;
use std::collections::BTreeMap;
use vx_base::{Kind, NodeSpec, PartialDesc, VirtualImage};

/// Creates a graph without nodes.
pub fn create_graph(table: &mut Table, limits: Limits) -> Result<Reply, RequestFault>
    ensures comes { MayComeTo (create limits table.old (GraphObject new_graph))
        table.old table.new result }
    ensures within_limits { KeepsLimits limits table.old → KeepsLimits limits table.new }
    ensures blocks { KeepsBlocks table.old.objects table.new.objects }
{
    require_capacity(table, limits, 0)?;
    let graph = Graph::new(table.allocator());
    hold(table, limits, Object::new(Content::Graph(graph)))
}

/// Creates a virtual image of a graph. `declared` is the image's partial description: width, height
/// and format, each of which may be open.
pub fn create_virtual_image(
    table: &mut Table,
    limits: Limits,
    graph: u32,
    declared: PartialDesc,
) -> Result<Reply, RequestFault>
    ensures comes { MayComeTo (create_virtual_image limits table.old graph declared)
        table.old table.new result }
    ensures within_limits { KeepsLimits limits table.old → KeepsLimits limits table.new }
    ensures blocks { KeepsBlocks table.old.objects table.new.objects }
{
    find_named(table, graph, Kind::Graph)?;
    require_capacity(table, limits, 0)?;
    declared.prove_sides();
    let image = VirtualImage { graph, declared };
    hold(table, limits, Object::new(Content::Virtual(image)))
}

/// Adds a node to a graph. The reply has the node's number.
#[tactic(auto, using(crate::proofs::BlockLemmas::graph_keeps_blocks))]
pub fn add_node(table: &mut Table, graph: u32, node: NodeSpec) -> Result<Reply, RequestFault>
    requires { IsContext table.old }
    ensures comes { MayComeTo (add_node table.old graph node) table.old table.new result }
    ensures within_limits { Keeps table.old table.new }
    ensures blocks { KeepsBlocks table.old.objects table.new.objects }
{
    find_graph_for(table, graph, &node.node())?;
    Ok(Reply::Node(table.add_node(graph, node)?))
}

/// Removes the node with this number from a graph.
pub fn remove_node(
    table: &mut Table,
    pool: &mut Pool,
    graph: u32,
    number: u32,
) -> Result<Reply, Refusal>
    requires context { IsContext table.old }
    requires owns { LendsAtLeast pool.old (blocks_in table.old.objects) }
    ensures comes { ComesTo (remove_node table.old graph number) table.old table.new result }
    ensures within_limits { Keeps table.old table.new }
    ensures balances { Balances pool.old pool.new table.old.objects table.new.objects }
{
    find_named(table, graph, Kind::Graph)?;
    match table.remove_node(graph, number, pool) {
        Ok(()) => Ok(Reply::Empty),
        Err(_) => Err(Refusal::InvalidReference),
    }
}

/// Verifies a graph. OpenVX 1.3, "Object: Graph", vxVerifyGraph. A graph that can't run is refused
/// with its verdict.
///
/// A verified graph stays in the cache until its nodes change or its name is released. Until then,
/// VerifyGraph of this graph with the same limit on work bytes verifies nothing and allocates
/// nothing.
pub fn verify_graph(
    table: &Table,
    kept: &mut BTreeMap<u32, KeptGraph>,
    limits: Limits,
    alloc: Global,
    graph: u32,
) -> Result<Reply, RequestFault>
    requires context { IsContext table.now }
    requires kept { AreKept table.now kept.old.entries }
    ensures comes { MayComeTo (verify_graph limits table.now graph) table.now table.now result }
    ensures kept { AreKept table.now kept.new.entries }
    ensures found { OnOk result (kept_within graph kept.new.entries ≡ Some limits.work) }
    ensures stay { StayKept limits.work (verified_in kept.old.entries)
        (verified_in kept.new.entries) }

    // The request takes no memory if the graph is in the cache with this limit on work bytes.
    ensures takes { IfErr result (λ fault. WantsMemory fault
        (kept_within graph kept.old.entries ≢ Some limits.work)) }
{
    let object = find_named(table, graph, Kind::Graph)?;
    let work = limits.work();
    if is_kept(kept, graph, work) {
        return Ok(Reply::Empty);
    }
    let verified = verify_in(alloc, table, object.graph(), work)?;
    let plan = Plan::new(alloc, &verified)?;
    let schedule = schedule_of(alloc, table, &verified, &plan)?;
    let found = KeptGraph {
        work,
        verified,
        plan,
        schedule,
    };
    match kept.insert(graph, found) {
        Ok(_) => Ok(Reply::Empty),
        Err(_) => Err(RequestFault::NoMemory),
    }
}

/// Returns whether a graph is in the cache `kept`, verified with this limit on work bytes.
fn is_kept(kept: &BTreeMap<u32, KeptGraph>, graph: u32, work: u64) -> bool
    ensures kept { result ≡ true → kept_within graph kept.now.entries ≡ Some work }
    ensures other { result ≡ false → kept_within graph kept.now.entries ≢ Some work }
{
    match kept.get(&graph) {
        Some(kept) => kept.work == work,
        None => false,
    }
}

/// Runs a graph, and then ages the delays that are registered with it. OpenVX 1.3, "Object: Graph",
/// vxProcessGraph. A graph that can't run is refused with its verdict. The run reuses the memory of
/// `lists`, which earlier runs of any graph may have used.
pub fn process_graph(
    table: &mut Table,
    kept: &mut BTreeMap<u32, KeptGraph>,
    lists: &mut Workspace,
    pool: &mut Pool,
    limits: Limits,
    alloc: Global,
    graph: u32,
) -> Result<Reply, RequestFault>
    requires context { KeepsLimits limits table.old }
    requires kept { AreKept table.old kept.old.entries }
    ensures comes { MayComeTo (process_graph limits table.old graph) table.old table.new result }
    ensures within_limits { KeepsLimits limits table.new }
    ensures balances { Balances pool.old pool.new table.old.objects table.new.objects }
    ensures kept { AreKept table.new kept.new.entries }
    ensures found { OnOk result (kept_within graph kept.new.entries ≡ Some limits.work) }
    ensures stay { StayKept limits.work (verified_in kept.old.entries)
        (verified_in kept.new.entries) }
{
    verify_graph(table, kept, limits, alloc, graph)?;
    let Some(kept) = kept.get(&graph) else {
        unreachable!()
    };
    run_scheduled(alloc, &kept.verified, &kept.schedule, lists, table, pool)?;
    table.age_registered(graph);
    Ok(Reply::Empty)
}
