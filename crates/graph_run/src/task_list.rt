//! The tasks of a graph. The operands of a task are indices of planes.
ghost use Rattle.std.specs.Prelude.{◌≡◌, ◌+◌, ◌++◌, ◌∷◌, [], ◌<◌, ◌^◌, IfOk};
ghost use Rattle.std.specs.Option.{option_and_then, option_copied};
ghost use Rattle.vx_base.specs.Function.{parameters};
ghost use Rattle.vx_base.specs.Node.{second_kind};
ghost use Rattle.object_table.specs.NamedObject.{object_at};
ghost use Rattle.node_rows.specs.Radius.{matrix_in};
ghost use Rattle.buffer_plan.specs.Places.{plan_view};
ghost use Rattle.graph_run.specs.Program.{radius_of};
ghost use Rattle.graph_run.specs.Tasks.{HasIndices, virtual_description, plane_of, virtual_output};
ghost use Rattle.graph_run.specs.Tasks.{source, step_for, tally_after};
ghost use Rattle.graph_run.specs.Tasks.{tasks_by, tasks_of, write_given};

use crate::blocks::slot_of;
use crate::cells::index_of;
use buffer_plan::Plan;
use graph_steps::{Reduction, SecondSource, Step, Task, step_radius};
use graph_verify::VirtualOutput;
use object_table::{Content, Table};
use std::alloc::{AllocError, Global};
use vx_base::{Convolution, Desc, Kind, Node, ObjRef, Output};

/// The data that determine the indices and radii in a graph's tasks.
#[derive(Clone, Copy)]
pub struct Binding<'a> {
    /// The table with the matrices, whose sizes determine radii.
    pub table: &'a Table,
    /// The height of the tallest image.
    pub high: u16,
    /// The virtual images that the nodes write.
    pub images: &'a [VirtualOutput],
    /// The plan of the slots of these images.
    pub plan: &'a Plan,
    /// The number of slots. Their planes come first.
    pub slots: usize,
    /// References to the client's images, whose planes follow.
    pub clients: &'a [ObjRef],
}

/// Returns the index of the plane of an image: the plane of a virtual image's slot, or the plane of
/// a client's image.
fn plane_of(binding: &Binding<'_>, cell: ObjRef) -> usize
    requires { HasIndices (plan_view binding.now.plan.now) binding.now.images.now
        binding.now.slots binding.now.clients.now }
    ensures { result ≡ plane_of (plan_view binding.now.plan.now) binding.now.images.now
        binding.now.slots binding.now.clients.now cell }
{
    match virtual_output(binding.images, cell) {
        Some(image) => slot_of(binding.plan, &image),
        None => binding.slots + index_of(binding.clients, cell),
    }
}

/// Returns the virtual image with this reference, or `None` if the nodes write no such image.
fn virtual_output(images: &[VirtualOutput], cell: ObjRef) -> Option<VirtualOutput>
    ensures { result ≡ virtual_output images.now cell }
{
    images.iter().copied().find(|image| image.cell == cell)
}

/// Returns the description of a virtual image that the nodes write, or `None` for any other object.
fn virtual_description(images: &[VirtualOutput], cell: ObjRef) -> Option<Desc>
    ensures { result ≡ virtual_description images.now cell }
{
    let image = virtual_output(images, cell)?;
    Some(image.desc)
}

/// Returns the tasks of all nodes, in the order of the nodes.
pub fn tasks_of(
    alloc: Global,
    binding: &Binding<'_>,
    steps: &[Node],
) -> Result<Vec<Task>, AllocError>
    requires { HasIndices (plan_view binding.now.plan.now) binding.now.images.now
        binding.now.slots binding.now.clients.now }
    ensures { IfOk result (λ tasks. tasks.items
        ≡ tasks_of (plane_of (plan_view binding.now.plan.now) binding.now.images.now
        binding.now.slots binding.now.clients.now) (virtual_description binding.now.images.now)
        (radius_of binding.now.table.now.objects binding.now.high) steps.now) }
{
    let mut tasks = Vec::with_capacity(alloc, steps.len())?;
    let mut tally = 0;
    for at in 0..steps.len() {
        tasks = with_tasks(tasks, binding, at, tally, &steps[at])?;
        tally = tally_after(tally, &steps[at]);
    }
    Ok(tasks)
}

/// Returns the list with the tasks of a node added, which has index `at` in the order of the nodes.
/// `tally` is the index of the next tally.
fn with_tasks(
    tasks: Vec<Task>,
    binding: &Binding<'_>,
    at: usize,
    tally: usize,
    node: &Node,
) -> Result<Vec<Task>, AllocError>
    requires { HasIndices (plan_view binding.now.plan.now) binding.now.images.now
        binding.now.slots binding.now.clients.now }
    ensures { IfOk result (λ added. added.items ≡ tasks.items
        ++ tasks_by (plane_of (plan_view binding.now.plan.now) binding.now.images.now
        binding.now.slots binding.now.clients.now) (virtual_description binding.now.images.now)
        (radius_of binding.now.table.now.objects binding.now.high)
        at tally node.now (parameters node.now.function).output) }
{
    match node.function.parameters().output {
        Kind::Image => {
            let tasks = with_step(tasks, binding, at, node, Output::First, node.out1)?;
            with_step(tasks, binding, at, node, Output::Second, node.out2)
        }
        _ => {
            let input = plane_of(binding, node.in1);
            with_task(tasks, Task::Reduce(Reduction { input, tally }))
        }
    }
}

/// Returns the index of the next tally when a node's tasks have been added. `tally` is this index
/// before they are added.
fn tally_after(tally: usize, node: &Node) -> usize
    requires { tally + 1 < 2 ^ 64 }
    ensures { result ≡ tally_after tally (parameters node.now.function).output }
{
    match node.function.parameters().output {
        Kind::Image => tally,
        _ => tally + 1,
    }
}

/// Returns the list with a task added. The prover refuses a plain `push(task)`: it finds the types
/// of a step's fields only where there is a step.
fn with_task(mut tasks: Vec<Task>, task: Task) -> Result<Vec<Task>, AllocError>
    ensures { IfOk result (λ added. added.items ≡ tasks.items ++ task ∷ []) }
{
    match task {
        Task::Write(step) => tasks.push(Task::Write(step))?,
        Task::Reduce(reduction) => tasks.push(Task::Reduce(reduction))?,
    }
    Ok(tasks)
}

/// Returns the list with the step added that writes a node's output, if the output is given.
fn with_step(
    tasks: Vec<Task>,
    binding: &Binding<'_>,
    at: usize,
    node: &Node,
    which: Output,
    output: Option<ObjRef>,
) -> Result<Vec<Task>, AllocError>
    requires { HasIndices (plan_view binding.now.plan.now) binding.now.images.now
        binding.now.slots binding.now.clients.now }
    ensures { IfOk result (λ added. added.items ≡ tasks.items
        ++ write_given (plane_of (plan_view binding.now.plan.now) binding.now.images.now
        binding.now.slots binding.now.clients.now) (virtual_description binding.now.images.now)
        (radius_of binding.now.table.now.objects binding.now.high)
        at node.now which output) }
{
    match output {
        Some(cell) => with_task(tasks, Task::Write(step_for(binding, at, node, which, cell))),
        None => Ok(tasks),
    }
}

/// Returns the step that writes an output of a node.
fn step_for(binding: &Binding<'_>, at: usize, node: &Node, which: Output, output: ObjRef) -> Step
    requires { HasIndices (plan_view binding.now.plan.now) binding.now.images.now
        binding.now.slots binding.now.clients.now }
    ensures { result ≡ step_for (plane_of (plan_view binding.now.plan.now) binding.now.images.now
        binding.now.slots binding.now.clients.now) (virtual_description binding.now.images.now)
        (radius_of binding.now.table.now.objects binding.now.high)
        at node.now which output }
{
    Step {
        node: *node,
        which,
        first: plane_of(binding, node.in1),
        second: source(binding, at, node),
        output: plane_of(binding, output),
        describes: virtual_description(binding.images, output),
        radius: radius_of(binding.table, binding.high, node),
        halo: 0,
    }
}

/// Returns the source of a node's second input.
fn source(binding: &Binding<'_>, at: usize, node: &Node) -> SecondSource
    requires { HasIndices (plan_view binding.now.plan.now) binding.now.images.now
        binding.now.slots binding.now.clients.now }
    ensures { result ≡ source (plane_of (plan_view binding.now.plan.now) binding.now.images.now
        binding.now.slots binding.now.clients.now) at (second_kind node.now) node.now.in2 }
{
    let kind = node.function.parameters().second_input;
    match (node.in2, kind.unwrap_or(Kind::Image)) {
        (None, _) => SecondSource::Nothing,
        (Some(cell), Kind::Image) => SecondSource::Plane(plane_of(binding, cell)),
        (Some(_), _) => SecondSource::Table(at),
    }
}

// ---- radii

/// Returns a node's radius: the number of input rows that the node reads above an output row. It
/// reads the same number of rows below. Returns `high` if the node's function writes no image.
pub fn radius_of(table: &Table, high: u16, node: &Node) -> u16
    ensures { result ≡ radius_of table.now.objects high node.now }
{
    step_radius(node.function, matrix_of(table, node)).unwrap_or(high)
}

/// Returns a node's second input if it is a matrix, else `None`.
fn matrix_of<'a>(table: &'a Table, node: &Node) -> Option<&'a Convolution>
    ensures { option_copied result
        ≡ matrix_in (option_and_then (object_at table.now.objects) node.now.in2) }
{
    let cell = node.in2?;
    if cell.slot().is_some() {
        return None;
    }
    match table.get_held(cell.name())?.content() {
        Content::Convolution(matrix) => Some(matrix),
        _ => None,
    }
}
