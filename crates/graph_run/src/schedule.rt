//! The schedule of a verified graph: its tasks over planes, and the blocks that the planes need.
ghost use Rattle.std.specs.Prelude.{◌≡◌, ◌≤◌, List, length, drop, IfOk};
ghost use Rattle.vx_base.specs.declared.node.Node.{Node as NodeFields};
ghost use Rattle.buffer_plan.specs.Places.{plan_view};
ghost use Rattle.buffer_plan.specs.Plan.{IsPlan};
ghost use Rattle.graph_run.specs.Operands.{IsReady};
ghost use Rattle.graph_run.specs.Schedule.{IsSchedule};

use crate::blocks::{capacities_of, slot_total};
use crate::cells::cells_of;
use crate::sizes::{band_size, find_all_halos, high_of};
use crate::tallies::tally_cells;
use crate::task_list::{Binding, tasks_of};
use buffer_plan::Plan;
use graph_steps::Task;
use graph_verify::Verified;
use object_table::Table;
use std::alloc::{AllocError, Global};
use vx_base::{Format, ObjRef};

/// The data that each run of a verified graph needs. A schedule is computed once, and stays correct
/// until the graph's nodes change, because images and matrices keep their sizes.
#[derive(Drop)]
pub struct Schedule {
    /// References to the graph's images: first the virtual images, then the client's images. The
    /// client's images have planes of their own, after the planes of the slots.
    pub(crate) cells: Vec<ObjRef>,
    pub(crate) tasks: Vec<Task>,
    /// The height of the tallest image.
    pub(crate) high: u16,
    /// The number of rows of a band.
    pub(crate) size: u16,
    /// For each slot, the format and the number of samples of its block.
    pub(crate) capacities: Vec<(Format, usize)>,
    /// References to the distributions and extremes that the tallies are written to.
    pub(crate) tally_cells: Vec<ObjRef>,
}

/// Returns the schedule of a verified graph, with the slots of a plan. An error means that there is
/// no memory for the schedule.
pub fn schedule_of(
    alloc: Global,
    table: &Table,
    verified: &Verified,
    plan: &Plan,
) -> Result<Schedule, AllocError>
    requires ready { (nodes : List NodeFields) × IsReady table.now.objects nodes verified.now }
    requires plan { IsPlan verified.now.steps verified.now.virtual_outputs
        (plan_view plan.now) }
    ensures { IfOk result (λ s. IsSchedule table.now.objects verified.now (plan_view plan.now) s) }
{
    let images = verified.virtual_outputs();
    let cells = cells_of(alloc, verified)?;
    let clients = clients_of(&cells, images.len());
    let high = high_of(table, images, clients);
    let binding = Binding {
        table,
        high,
        images,
        plan,
        slots: slot_total(plan),
        clients,
    };
    let mut tasks = tasks_of(alloc, &binding, verified.steps())?;
    let count = binding.slots + clients.len();
    let needs = find_all_halos(alloc, high, tasks.as_mut_slice(), count)?;
    let size = band_size(high, table, verified, &tasks, &needs);
    let capacities = capacities_of(alloc, plan, size, &tasks)?;
    let tally_cells = tally_cells(alloc, verified.steps())?;
    Ok(Schedule {
        cells,
        tasks,
        high,
        size,
        capacities,
        tally_cells,
    })
}

/// Returns the references to the client's images, which come after the references to the virtual
/// images.
pub fn clients_of(cells: &[ObjRef], virtuals: usize) -> &[ObjRef]
    requires { virtuals ≤ length cells.now }
    ensures { result.now ≡ drop virtuals cells.now }
{
    &cells[virtuals..]
}
