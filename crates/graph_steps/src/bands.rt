//! Runs programs band by band.
ghost use Rattle.std.specs.Prelude.{◌≡◌, ◌+◌, ◌<◌, ◌^◌, ℕ, length};
ghost use Rattle.vx_base.specs.Image.{ImageValue};
ghost use Rattle.graph_steps.specs.Planes.{plane, plane_image, block_image, block_images};
ghost use Rattle.graph_steps.specs.Planes.{IsReadable, IsWhole};
ghost use Rattle.graph_steps.specs.Steps.{capacities};
ghost use Rattle.graph_steps.specs.Program.{IsClients, IsProgram, after_tasks, band_rows};
ghost use Rattle.graph_steps.specs.Program.{images_at_end};
ghost use Rattle.graph_steps.specs.Runs.{CanRunBand, CanReduceBand};
ghost use Rattle.graph_steps.specs.Tallies.{AreNew, AreTallied, CanReduce};
ghost use Rattle.graph_steps.specs.Tallies.{after_reduction, all_tallies_after};

use crate::one_step::run_step;
use crate::plane::{Plane, with_halo};
use crate::step::{Reduction, Step, Task};
use crate::tables::Tables;
use crate::tally::Tally;
use image_core::Band;

/// Returns the rows that a step writes for a band: the rows of the band and of the step's halo.
#[tactic(auto, using(crate::proofs::StepLaws::plane_read))]
fn rows_for(step: &Step, band: Band, planes: &[Plane]) -> Band
    requires fits { band.start + band.count < 2 ^ 16 }
    requires output { step.now.output < length planes.now }
    ensures { result ≡ band_rows step.now band planes.now }
{
    let desc = step.describes.unwrap_or(planes[step.output].desc());
    with_halo(desc.height(), band, step.halo)
}

/// Runs a reduction on a band: adds the input plane's rows in the band to the tally.
fn reduce(reduction: &Reduction, band: Band, planes: &[Plane], tallies: &mut [Tally])
    requires fits { band.start + band.count < 2 ^ 16 }
    requires input { reduction.now.input < length planes.now }
    requires reads { IsReadable (plane planes.now reduction.now.input) }
    requires can { CanReduce band.start (plane_image (plane planes.now reduction.now.input))
        tallies.old reduction.now }
    ensures { tallies.new ≡ after_reduction band planes.now reduction.now tallies.old }
{
    let input = &planes[reduction.input];
    let rows = with_halo(input.desc().height(), band, 0);
    tallies[reduction.tally].add(&input.image(), rows);
}

/// Runs all tasks on a band. Each step writes the rows of the band and of its halo. Each reduction
/// adds the rows of the band to its tally.
fn run_band<T: Tables>(
    tables: &T,
    tasks: &[Task],
    band: Band,
    planes: &mut [Plane],
    tallies: &mut [Tally],
)
    requires { (high slots : ℕ) × (images : ℕ → ImageValue)
        × CanRunBand (T.tables tables.now) high slots band tasks.now images planes.old
        × CanReduceBand (T.tables tables.now) band.start tasks.now images tallies.old }
    ensures planes { planes.new ≡ after_tasks (T.tables tables.now) band tasks.now planes.old }
    ensures tallies { tallies.new ≡ all_tallies_after (T.tables tables.now) band tasks.now
        planes.old tallies.old }
{
    let mut rest = tasks;
    while let Some((task, later)) = rest.split_first() {
        match task {
            Task::Write(step) => {
                let rows = rows_for(step, band, planes);
                run_step(tables, step, rows, planes);
            }
            Task::Reduce(reduction) => reduce(reduction, band, planes, tallies),
        }
        rest = later;
    }
}

/// Runs a program in bands of `size` rows, over planes of at most `high` rows.
///
/// The results don't depend on `size`: they are those of the tasks on whole images, one task after
/// the other. Afterwards the plane of each client's image holds the image that the tasks leave in
/// it, and each tally is that of its reduction's whole input image.
pub fn run<T: Tables>(
    tables: &T,
    tasks: &[Task],
    high: u16,
    size: u16,
    planes: &mut [Plane],
    tallies: &mut [Tally],
)
    requires program { (slots : ℕ)
        × IsProgram (T.tables tables.now) high size slots tasks.now planes.old }
    requires reduces { CanReduceBand (T.tables tables.now) 0 tasks.now (block_images planes.old)
        tallies.old }
    requires new { AreNew tasks.now tallies.old }
    ensures images { (slots : ℕ) →
        IsProgram (T.tables tables.now) high size slots tasks.now planes.old →
        (c : ℕ) → IsClients slots (length planes.old) c → block_image (plane planes.new c)
        ≡ images_at_end (T.tables tables.now) tasks.now (block_images planes.old) c }
    ensures clients { (slots : ℕ) →
        IsProgram (T.tables tables.now) high size slots tasks.now planes.old →
        (c : ℕ) → IsClients slots (length planes.old) c → IsWhole (plane planes.new c)
        × ((plane planes.new c).desc ≡ (plane planes.old c).desc) }
    ensures tallies { AreTallied (T.tables tables.now) tasks.now (block_images planes.old)
        tallies.old tallies.new }
    ensures blocks { capacities planes.new ≡ capacities planes.old }
{
    let mut first = 0;
    while first < high {
        let band = Band {
            start: first,
            count: size.min(high - first),
        };
        run_band(tables, tasks, band, planes, tallies);
        first += band.count;
    }
}
