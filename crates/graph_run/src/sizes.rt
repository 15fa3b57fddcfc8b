//! The height of a graph's tallest image, the halos of its steps, and the number of rows of a band.
ghost use Rattle.std.specs.Prelude.{◌≡◌, ◌≤◌, ◌<◌, ℕ, All, true, map, None, OnOk, IfOk, IfSome};
ghost use Rattle.object_table.specs.Table.{image_held};
ghost use Rattle.graph_steps.specs.declared.step.Step.{Step as StepValue};
ghost use Rattle.graph_steps.specs.declared.step.Task.TheVariants.{Write};
ghost use Rattle.graph_steps.specs.Halos.{AreNeeded, Cover, HasOnly, NamesBelow, without_halo};
ghost use Rattle.graph_steps.specs.Program.{AreEnough, IsStepOf};
ghost use Rattle.graph_steps.specs.Steps.{reads_output};
ghost use Rattle.graph_run.specs.Bind.{HoldImages};
ghost use Rattle.graph_run.specs.Program.{AddOnce};

use crate::verify::operand_held;
use graph_steps::{Task, find_halos};
use graph_verify::{Operand, Verified, VirtualOutput};
use object_table::Table;
use std::alloc::{AllocError, Global};
use vx_base::{Desc, ObjRef};

/// The least number of samples of an image for which bands are used. Smaller images fit in the
/// cache, so bands gain nothing.
const LEAST_SAMPLES: usize = 131_072;

/// The least number of samples of an image for which bands with halos are used. For smaller images,
/// computing the halo rows twice costs as much as bands gain.
const LEAST_SAMPLES_WITH_HALO: usize = 500_000;

/// The wanted number of samples in a band of one image, so that the bands of a few images fit in
/// the cache together.
const BAND_SAMPLES: u32 = 65_536;

/// The greatest number of samples in a band of one image, whatever the halo.
const GREATEST_BAND_SAMPLES: u32 = 2_097_152;

/// The least number of rows of a band. With fewer rows, the calls of the steps cost too much time.
const LEAST_ROWS: u32 = 16;

/// The greatest number of rows of a band, unless its halo needs more. Larger bands gain nothing.
const GREATEST_ROWS: u32 = 64;

/// The greatest number of rows of a band, whatever the halo.
const GREATEST_ROWS_WITH_HALO: u32 = 1_024;

/// The least number of bands. With fewer bands, a graph gains nothing.
const LEAST_BANDS: u16 = 4;

/// The wanted number of rows of a band for each row of its halo. Halo rows are computed twice, so a
/// band needs many more rows than its halo.
const ROWS_FOR_HALO_ROW: u32 = 16;

/// The least number of rows of a band for each row of its halo. With fewer rows, bands cost more
/// than they gain.
const LEAST_FOR_HALO_ROW: u16 = 4;

// ---- heights

/// Returns the height of the tallest image of a graph, but at least 1. The graph's images are the
/// virtual images in `images` and the images that `clients` refers to.
pub fn high_of(table: &Table, images: &[VirtualOutput], clients: &[ObjRef]) -> u16
    requires { HoldImages table.now.objects clients.now }
    ensures some { 0 < result }
    ensures virtuals { All (λ o. o.desc.height ≤ result) images.now }
    ensures clients { All (λ c. (image_held table.now.objects c).height ≤ result) clients.now }
    ensures least { (high : ℕ) → 0 < high → All (λ o. o.desc.height ≤ high) images.now →
        All (λ c. (image_held table.now.objects c).height ≤ high) clients.now → result ≤ high }
{
    let mut high = highest_virtual(images);
    for cell in clients {
        high = high.max(table.image(*cell).desc().height());
    }
    high
}

/// Returns the height of the tallest virtual image, but at least 1.
fn highest_virtual(images: &[VirtualOutput]) -> u16
    ensures some { 0 < result }
    ensures virtuals { All (λ o. o.desc.height ≤ result) images.now }
    ensures least { (high : ℕ) → 0 < high → All (λ o. o.desc.height ≤ high) images.now →
        result ≤ high }
{
    let mut high = 1;
    for image in images {
        high = high.max(image.desc.height());
    }
    high
}

// ---- halos

/// Finds the halo of each task, over `count` planes with images of at most `high` rows. Returns the
/// number of rows that the tasks need of each client's image above a band; they need as many below.
pub fn find_all_halos(
    alloc: Global,
    high: u16,
    tasks: &mut [Task],
    count: usize,
) -> Result<Vec<u16>, AllocError>
    requires { All (NamesBelow count) tasks.old }
    ensures enough { OnOk result (AreEnough high tasks.new) }
    ensures only { OnOk result (AreNeeded high tasks.new) }
    ensures needs { IfOk result (λ needs. Cover high tasks.new needs.items
        × HasOnly high tasks.new needs.items) }
    ensures same { OnOk result (map without_halo tasks.new ≡ map without_halo tasks.old) }
{
    let mut needs = vec![in alloc; 0; count]?;
    find_halos(high, tasks, needs.as_mut_slice());
    Ok(needs)
}

// ---- bands

/// Returns the number of rows of a band. The number is `high` if bands gain nothing, or if
/// `add_once` returns false. There is then one band, with all rows. `needs` has the rows that are
/// needed of each client's image above and below a band.
pub fn band_size(
    high: u16,
    table: &Table,
    verified: &Verified,
    tasks: &[Task],
    needs: &[u16],
) -> u16
    requires { 0 < high }
    ensures forward { 0 < result }
    ensures once { AddOnce high result tasks.now }
{
    let rows = match first_desc(table, verified) {
        Some(desc) => rows_of(desc, greatest_of(needs)),
        None => None,
    };
    match rows {
        Some(rows) if add_once(tasks) => rows,
        _ => high,
    }
}

/// Returns the description of the first node's first input, if the description is known.
fn first_desc(table: &Table, verified: &Verified) -> Option<Desc> {
    let node = verified.steps().first()?;
    if let Some(desc) = verified.desc_of(node.in1) {
        return Some(desc);
    }
    match operand_held(table, node.in1) {
        Operand::Image(desc) => Some(desc),
        _ => None,
    }
}

/// Returns the greatest of these numbers, or 0 if there are none.
fn greatest_of(numbers: &[u16]) -> u16 {
    let mut most = 0;
    for number in numbers {
        most = most.max(*number);
    }
    most
}

/// Returns the number of rows of a band, for images of this description and halos of at most `halo`
/// rows. Returns `None` if bands gain nothing.
fn rows_of(desc: Desc, halo: u16) -> Option<u16>
    ensures { IfSome result (λ rows. 0 < rows) }
{
    let samples = desc.sample_count();
    if samples < LEAST_SAMPLES || halo > 0 && samples < LEAST_SAMPLES_WITH_HALO {
        return None;
    }
    let rows = wanted_rows(desc, halo);
    if desc.height() / LEAST_BANDS < rows || halo > rows / LEAST_FOR_HALO_ROW {
        return None;
    }
    Some(rows)
}

/// Returns the wanted number of rows of a band.
fn wanted_rows(desc: Desc, halo: u16) -> u16
    ensures { 0 < result }
{
    let width = u32::from(desc.width());
    let for_cache = (BAND_SAMPLES / width).min(GREATEST_ROWS);
    let for_halo = u32::from(halo) * ROWS_FOR_HALO_ROW;
    let greatest = (GREATEST_BAND_SAMPLES / width).min(GREATEST_ROWS_WITH_HALO);
    for_cache.max(for_halo).min(greatest).max(LEAST_ROWS) as u16
}

/// Returns whether the steps that read their own output (accumulations and integral images) write
/// each row once, to a client's image.
fn add_once(tasks: &[Task]) -> bool
    ensures { result ≡ true → (s : StepValue) → IsStepOf s tasks.now →
        reads_output s.node.function ≡ true → (s.halo ≡ 0) × (s.describes ≡ None) }
{
    let mut rest = tasks;
    while let Some((task, later)) = rest.split_first() {
        if !adds_once(task) {
            return false;
        }
        rest = later;
    }
    true
}

/// Returns whether a task, if it reads its own output, writes each row once, to a client's image.
fn adds_once(task: &Task) -> bool
    ensures { result ≡ true → (s : StepValue) → task.now ≡ Write s →
        reads_output s.node.function ≡ true → (s.halo ≡ 0) × (s.describes ≡ None) }
{
    match task {
        Task::Write(step) if step.reads_output() => step.describes.is_none() && step.halo == 0,
        _ => true,
    }
}
