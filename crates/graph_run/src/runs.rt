//! Runs a verified graph over planes. The samples of the client's images move from the table of
//! objects to planes, and the graph's tasks run. Then the samples move back, and the tallies are
//! written to objects of the table.
ghost use Rattle.std.specs.Prelude.{◌≡◌, ◌≤◌, ◌+◌, [], List, length, map, take};
ghost use Rattle.std.specs.Prelude.{vec_capacity, All, OnErr, OnOk};
ghost use Rattle.std.specs.List.Sorted.{IsStrictlyIncreasing};
ghost use Rattle.vx_base.specs.declared.format.Format.{Format as SampleFormat};
ghost use Rattle.vx_base.specs.declared.node.Node.{Node as NodeFields};
ghost use Rattle.vx_base.specs.Description.{IsDescription};
ghost use Rattle.vx_base.specs.Object.{IsObject};
ghost use Rattle.pixel_pool.specs.Free.{free_count};
ghost use Rattle.pixel_pool.specs.Pool.{KeepsLent, blocks_of, free_of};
ghost use Rattle.graph_verify.specs.PartialDescriptions.{resolved_operand};
ghost use Rattle.buffer_plan.specs.Places.{plan_view};
ghost use Rattle.buffer_plan.specs.Plan.{IsPlan, PlanView};
ghost use Rattle.graph_run.specs.Graph.{run_of_graph};
ghost use Rattle.graph_run.specs.Lasting.{Lasts};
ghost use Rattle.graph_run.specs.Operands.{operand_held, IsReady};
ghost use Rattle.object_table.specs.Context.{with_objects};
ghost use Rattle.object_table.specs.NamedObject.{with_written};
ghost use Rattle.graph_steps.specs.Program.{IsProgram};
ghost use Rattle.graph_steps.specs.Runs.{CanReduceBand};
ghost use Rattle.graph_steps.specs.Planes.{block_images};
ghost use Rattle.graph_steps.specs.Steps.{capacities};
ghost use Rattle.graph_run.specs.Blocks.{block_size, capacity_count, lent_size};
ghost use Rattle.graph_run.specs.Bound.{LendTables};
ghost use Rattle.graph_run.specs.Program.{tables_of, tallies_of};
ghost use Rattle.graph_run.specs.Results.{tally_objects};
ghost use Rattle.graph_run.specs.Schedule.{ArePlanes, CanReturn, CanRunBy, IsSchedule};
ghost use Rattle.graph_run.specs.Schedule.{bare_objects, schedule_objects};

use crate::bind::{put_back, take_out};
use crate::blocks::{give_back, take_blocks};
use crate::schedule::{Schedule, clients_of, schedule_of};
use crate::slot_planes::{add_slots, return_blocks};
use crate::tables::NodeTables;
use crate::tallies::{begin_tallies, set_tallies};
use crate::workspace::Workspace;
use buffer_plan::Plan;
use graph_steps::{Plane, Tally};
use graph_verify::Verified;
use object_table::Table;
use pixel_pool::{Block, Pool};
use std::alloc::{AllocError, Global};
use vx_base::Node;

/// Runs a verified graph on the objects that its nodes name. OpenVX 1.3, "Graphs", vxProcessGraph.
///
/// The nodes run in the order of the verification. On large images, each node runs once for each
/// band of rows. The virtual images that the nodes write share blocks of the pool, by the slots of
/// the plan. At the end these blocks are given back, and the virtual images are as before the run.
/// All memory is allocated first, so after an error the objects are unchanged; only the pool's free
/// blocks may have changed.
pub fn run(
    alloc: Global,
    verified: &Verified,
    plan: &Plan,
    table: &mut Table,
    pool: &mut Pool,
) -> Result<(), AllocError>
    requires objects { All (λ o. IsObject o.object) table.old.objects }
    requires names { IsStrictlyIncreasing (map (λ o. o.name) table.old.objects) }
    requires ready { (nodes : List NodeFields) ×
        IsReady table.old.objects nodes verified.now }
    requires plan { IsPlan verified.now.steps verified.now.virtual_outputs
        (plan_view plan.now) }
    ensures value { OnOk result ((nodes : List NodeFields) →
        IsReady table.old.objects nodes verified.now →
        table.new ≡ with_objects table.old
        (run_of_graph (resolved_operand (operand_held table.old.objects) nodes) nodes
        table.old.objects)) }
    ensures lasts { Lasts table.old.objects table.new.objects }
    ensures lent { KeepsLent pool.old pool.new }
    ensures err { OnErr result (table.new ≡ table.old) }
    ensures adds { (format : SampleFormat) → blocks_of pool.new format
        ≤ blocks_of pool.old format + (plan_view plan.now).slot_count format }

    // The blocks of this run are free for the next run.
    ensures free { OnOk result ((format : SampleFormat) →
        (plan_view plan.now).slot_count format ≤ free_count (free_of pool.new format)) }
{
    let schedule = schedule_of(alloc, table, verified, plan)?;
    let mut lists = Workspace::new(alloc);
    run_scheduled(alloc, verified, &schedule, &mut lists, table, pool)
}

/// Runs a verified graph as `run` does, but by a given schedule. `schedule_of` must have made this
/// schedule for the graph.
///
/// `lists` may be left from an earlier run, of this graph or another. If the lists are large enough
/// and the pool has free blocks that fit, the run needs no new memory.
pub fn run_scheduled(
    alloc: Global,
    verified: &Verified,
    schedule: &Schedule,
    lists: &mut Workspace,
    table: &mut Table,
    pool: &mut Pool,
) -> Result<(), AllocError>
    requires objects { All (λ o. IsObject o.object) table.old.objects }
    requires names { IsStrictlyIncreasing (map (λ o. o.name) table.old.objects) }
    requires ready { (nodes : List NodeFields) ×
        IsReady table.old.objects nodes verified.now }
    requires schedule { (p : PlanView) ×
        IsPlan verified.now.steps verified.now.virtual_outputs p ×
        IsSchedule table.old.objects verified.now p schedule.now }
    ensures value { OnOk result ((nodes : List NodeFields) →
        IsReady table.old.objects nodes verified.now →
        table.new ≡ with_objects table.old
        (run_of_graph (resolved_operand (operand_held table.old.objects) nodes) nodes
        table.old.objects)) }
    ensures lasts { Lasts table.old.objects table.new.objects }
    ensures lent { KeepsLent pool.old pool.new }
    ensures err { OnErr result (table.new ≡ table.old) }
    ensures adds { (format : SampleFormat) → blocks_of pool.new format
        ≤ blocks_of pool.old format + capacity_count schedule.now.capacities.items format }

    // The blocks of this run are free for the next run.
    ensures free { OnOk result ((format : SampleFormat) →
        capacity_count schedule.now.capacities.items format
        ≤ free_count (free_of pool.new format)) }
{
    prove_descriptions(verified);
    let (planes, blocks) = (&mut lists.planes, &mut lists.blocks);
    begin_tallies(&mut lists.tallies, table, verified.steps())?;
    planes.clear();
    planes.reserve(schedule.capacities.len() + schedule.cells.len())?;
    take_blocks(blocks, pool, &schedule.capacities)?;
    let slots = blocks.as_mut_slice();
    fill_planes(verified, schedule, table, slots, planes);
    let planes = planes.as_mut_slice();
    let tallies = lists.tallies.as_mut_slice();
    let tables = NodeTables {
        table,
        steps: verified.steps(),
    };
    graph_steps::run(
        &tables,
        &schedule.tasks,
        schedule.high,
        schedule.size,
        planes,
        tallies,
    );
    empty_planes(verified, schedule, table, slots, planes, tallies);
    give_back(blocks, pool);
    Ok(())
}

/// Proves that the width and height of each virtual image are in range. The prover learns the range
/// of a number only where the number is read, so a loop reads every description. The compiler
/// removes the loop.
fn prove_descriptions(verified: &Verified)
    ensures { All (λ o. IsDescription o.desc) verified.now.virtual_outputs }
{
    for image in verified.virtual_outputs() {
        image.desc.prove_sides();
    }
}

/// Fills the list of planes, which must be empty: first the planes of the slots, which get the
/// slots' blocks, then the planes of the client's images. The samples of the client's images are
/// taken from the table. The tasks can then run.
fn fill_planes(
    verified: &Verified,
    schedule: &Schedule,
    table: &mut Table,
    blocks: &mut [Block],
    planes: &mut Vec<Plane>,
)
    requires runs { CanRunBy table.old.objects verified.now schedule.now }
    requires sizes { map block_size blocks.old ≡ schedule.now.capacities.items }
    requires none { planes.old.items ≡ [] }
    requires room { length blocks.old + length schedule.now.cells.items ≤ vec_capacity planes.old }
    ensures planes { ArePlanes table.old.objects verified.now schedule.now blocks.old
        planes.new.items }
    ensures lent { LendTables table.new.objects verified.now.steps }
    ensures program { IsProgram (tables_of table.new.objects verified.now.steps)
        schedule.now.high schedule.now.size (length blocks.old) schedule.now.tasks.items
        planes.new.items }
    ensures reduces { CanReduceBand (tables_of table.new.objects verified.now.steps) 0
        schedule.now.tasks.items (block_images planes.new.items)
        (tallies_of table.old.objects verified.now.steps) }
    ensures lent_sizes { map lent_size blocks.new ≡ map lent_size blocks.old }
    ensures left { table.new ≡ with_objects table.old
        (bare_objects table.old.objects verified.now schedule.now) }
{
    add_slots(blocks, planes);
    let clients = clients_of(&schedule.cells, verified.virtual_outputs().len());
    take_out(table, clients, planes);
}

/// Moves the blocks of the slots back. Moves the samples of the client's images back to the table,
/// and writes the tallies to objects of the table.
fn empty_planes(
    verified: &Verified,
    schedule: &Schedule,
    table: &mut Table,
    blocks: &mut [Block],
    planes: &mut [Plane],
    tallies: &[Tally],
)
    requires { CanReturn table.old.objects verified.now schedule.now blocks.old planes.old
        tallies.now }
    ensures value { table.new ≡ with_objects table.old (with_written
        (with_written table.old.objects
        (schedule_objects verified.now schedule.now (length blocks.old) planes.old))
        (tally_objects schedule.now.tally_cells.items tallies.now)) }
    ensures back { map block_size blocks.new ≡ take (length blocks.old) (capacities planes.old) }
    ensures lent_sizes { map lent_size blocks.new ≡ map lent_size blocks.old }
{
    return_blocks(blocks, planes);
    let clients = clients_of(&schedule.cells, verified.virtual_outputs().len());
    put_back(table, clients, &mut planes[blocks.len()..]);
    set_tallies(table, &schedule.tally_cells, tallies);
}
