//! Runs one step on some rows.
ghost use Rattle.std.specs.Prelude.{◌≡◌, ◌<◌, ℕ, length, slice_set};
ghost use Rattle.image_core.specs.Second.{second_object};
ghost use Rattle.graph_steps.specs.declared.step.SecondSource.TheVariants.{Plane as FromPlane};
ghost use Rattle.graph_steps.specs.Planes.{plane, read_images, IsReadable, without_block};
ghost use Rattle.graph_steps.specs.Steps.{CanStep, after_step, output_plane, second_in};

use crate::kernel::Kernel;
use crate::plane::Plane;
use crate::step::{SecondSource, Step};
use crate::tables::Tables;
use image_core::{Band, SecondInput};

/// Returns a step's second input.
fn second_input<'a, T: Tables>(
    tables: &'a T,
    source: SecondSource,
    planes: &'a [Plane],
) -> SecondInput<'a>
    requires { (c : ℕ) → source ≡ FromPlane c →
        (c < length planes.now) × IsReadable (plane planes.now c) }
    ensures { second_object result
        ≡ second_in (T.tables tables.now) (read_images planes.now) source }
{
    match source {
        SecondSource::Nothing => SecondInput::Nothing,
        SecondSource::Plane(at) => SecondInput::Image(planes[at].image()),
        SecondSource::Table(at) => tables.table(at),
    }
}

/// Takes the output out of the planes, so that it can be written while the planes are read. If the
/// output is a virtual image, its plane begins to hold it, with a block that begins with row `top`.
fn take_output(step: &Step, top: u16, planes: &mut [Plane]) -> Plane
    requires { step.now.output < length planes.old }
    ensures value { result
        ≡ output_plane step.now.describes top (plane planes.old step.now.output) }
    ensures left { planes.new ≡ slice_set planes.old step.now.output
        (without_block (plane planes.old step.now.output)) }
{
    let mut output = planes[step.output].take_out();
    if let Some(desc) = step.describes {
        output.describe(desc, top);
    }
    output
}

/// Runs a step on these rows of its output.
pub fn run_step<T: Tables>(tables: &T, step: &Step, rows: Band, planes: &mut [Plane])
    requires { CanStep (T.tables tables.now) step.now rows planes.old }
    ensures { planes.new ≡ after_step (T.tables tables.now) step.now rows planes.old }
{
    let mut output = take_output(step, rows.start, planes);
    let inputs: &[Plane] = planes;
    let first = inputs[step.first].image();
    if step.is_integral() {
        output.write_sums(&first, rows);
    } else {
        let second = second_input(tables, step.second, inputs);
        let kernel = Kernel {
            step,
            first: &first,
            second: &second,
        };
        output.write(&kernel, rows);
    }
    planes[step.output] = output;
}
