//! Tasks: steps and reductions.
ghost use Rattle.std.specs.Prelude.{◌≡◌};
ghost use Rattle.std.specs.Option.{option_copied};
ghost use Rattle.graph_steps.specs.Steps.{is_integral, lent_step, reads_output, step_radius};

use node_rows::window_radius;
use vx_base::{Convolution, Desc, Function, Node, Output};

/// The source of a step's second input.
#[derive(Clone, Copy, Debug)]
pub enum SecondSource {
    /// No second input.
    Nothing,
    /// The plane at this index.
    Plane(usize),
    /// The lookup table, threshold or matrix at this index of the run's `Tables`.
    Table(usize),
}

/// The computation of one output image of a node, with planes as the node's images.
#[derive(Clone, Copy, Debug)]
pub struct Step {
    /// The function and its parameters. The node's references aren't used.
    pub node: Node,
    pub which: Output,
    /// The index of the first input's plane.
    pub first: usize,
    pub second: SecondSource,
    /// The index of the output's plane.
    pub output: usize,
    /// The description of the virtual image that the step writes: the plane of a slot then holds
    /// this image. `None` if the output is a client's image, which has a plane of its own.
    pub describes: Option<Desc>,
    /// The number of input rows that the step reads above an output row. It reads the same number
    /// of rows below.
    pub radius: u16,
    /// The number of rows that the step writes above a band, because later tasks need them. It
    /// writes the same number of rows below.
    pub halo: u16,
}

/// Returns the radius of a step: the number of input rows that the step reads above an output row.
/// It reads the same number of rows below. Integral has radius 0, since it computes each row from
/// one input row and from the output row above. Returns `None` if the function writes no image.
pub fn step_radius(function: Function, matrix: Option<&Convolution>) -> Option<u16>
    ensures { result ≡ step_radius function (option_copied matrix.entry) }
{
    if is_integral(function) {
        Some(0)
    } else {
        window_radius(function, matrix)
    }
}

fn is_integral(function: Function) -> bool
    ensures { result ≡ is_integral function }
{
    matches!(function, Function::Integral)
}

impl Step {
    /// Returns the step of a node whose inputs are passed to the kernel directly, not as planes.
    /// The step's plane indices aren't used.
    pub fn of_lent(node: Node, which: Output) -> Step
        ensures { result ≡ lent_step node which }
    {
        Step {
            node,
            which,
            first: 0,
            second: SecondSource::Nothing,
            output: 0,
            describes: None,
            radius: 0,
            halo: 0,
        }
    }

    /// Returns whether the step writes an integral image.
    pub fn is_integral(&self) -> bool
        ensures { result ≡ is_integral self.now.node.function }
    {
        is_integral(self.node.function)
    }

    /// Returns whether the step reads its own output: Integral does, and so does a function that
    /// accumulates. Such a step must write each row once.
    pub fn reads_output(&self) -> bool
        ensures { result ≡ reads_output self.now.node.function }
    {
        self.node.function.accumulates() || self.is_integral()
    }
}

/// A reduction of an image to a histogram or to its extremes.
#[derive(Clone, Copy, Debug)]
pub struct Reduction {
    /// The index of the image's plane.
    pub input: usize,
    /// The index of the tally.
    pub tally: usize,
}

/// A task of a program. Each task runs on every band.
#[derive(Clone, Copy, Debug)]
pub enum Task {
    /// Writes rows of an image.
    Write(Step),
    /// Adds rows of an image to a tally.
    Reduce(Reduction),
}
