//! Pool blocks that the virtual images of a graph share, by the slots of the graph's plan.
ghost use Rattle.std.specs.Prelude.{◌≡◌, ◌≤◌, ◌<◌, ◌+◌, ◌++◌, ◌^◌, [], length, map};
ghost use Rattle.std.specs.Prelude.{IfOk, OnOk, OnErr, vec_capacity};
ghost use Rattle.vx_base.specs.declared.format.Format.{Format as SampleFormat};
ghost use Rattle.pixel_pool.specs.Pool.{KeepsLent, KeepsBlockCounts, blocks_of};
ghost use Rattle.object_table.specs.Blocks.{LendsAtLeast, LendsMore, LendsLess};
ghost use Rattle.buffer_plan.specs.Places.{plan_view};
ghost use Rattle.graph_run.specs.Blocks.{band_plan, band_samples, blocks_of_format, block_size};
ghost use Rattle.graph_run.specs.Blocks.{capacity_count, lent_size, samples_for, task_samples};
ghost use Rattle.graph_run.specs.Slots.{slot_index_of, planned_capacities, capacities_for};
ghost use Rattle.graph_run.specs.Slots.{slot_index, slot_total};

use buffer_plan::Plan;
use graph_steps::Task;
use graph_verify::VirtualOutput;
use pixel_pool::{Block, Pool};
use std::alloc::{AllocError, Global};
use vx_base::{Desc, Format};

// ---- slots

/// Returns the number of slots of all formats.
pub fn slot_total(plan: &Plan) -> usize
    requires { slot_total (plan_view plan.now) < 2 ^ 64 }
    ensures { result ≡ slot_total (plan_view plan.now) }
{
    plan.slot_count(Format::U8) + plan.slot_count(Format::S16) + plan.slot_count(Format::U32)
}

/// Returns the slot of a virtual image, as an index among the slots of all formats.
pub fn slot_of(plan: &Plan, image: &VirtualOutput) -> usize
    requires { slot_index_of (plan_view plan.now) image.now < 2 ^ 64 }
    ensures { result ≡ slot_index_of (plan_view plan.now) image.now }
{
    let slot = plan.slot_of(image.cell).unwrap_or(0);
    slot_index(plan, image.desc.format(), slot)
}

// ---- capacities

/// Returns the format and the number of samples of each slot's block. The block is large enough for
/// a band, with halo, of any image that the tasks write to the slot.
pub fn capacities_of(
    alloc: Global,
    plan: &Plan,
    size: u16,
    tasks: &[Task],
) -> Result<Vec<(Format, usize)>, AllocError>
    ensures { IfOk result (λ capacities. capacities.items ≡ planned_capacities (band_plan size
        tasks.now (plan_view plan.now))) }
{
    let mut capacities = Vec::new(alloc);
    add_capacities(&mut capacities, plan, size, tasks, Format::U8)?;
    add_capacities(&mut capacities, plan, size, tasks, Format::S16)?;
    add_capacities(&mut capacities, plan, size, tasks, Format::U32)?;
    Ok(capacities)
}

/// Adds an entry for each slot of a format: the format and the slot's number of samples. The list
/// must already have an entry for each slot of the formats that precede this one in the order U8,
/// S16, U32.
fn add_capacities(
    capacities: &mut Vec<(Format, usize)>,
    plan: &Plan,
    size: u16,
    tasks: &[Task],
    format: Format,
) -> Result<(), AllocError>
    requires { length capacities.old.items ≡ slot_index (plan_view plan.now) format 0 }
    ensures { OnOk result (capacities.new.items ≡ capacities.old.items ++ capacities_for (band_plan
        size tasks.now (plan_view plan.now)) format) }
{
    let count = plan.slot_count(format);
    capacities.reserve(count)?;
    for _k in 0..count {
        let samples = samples_for(tasks, size, capacities.len());
        capacities.push_reserved((format, samples));
    }
    Ok(())
}

/// Returns the number of samples that a slot needs: the most that any task needs.
fn samples_for(tasks: &[Task], size: u16, slot: usize) -> usize
    ensures { result ≡ samples_for size slot tasks.now }
{
    let mut most = 0;
    let mut rest = tasks;
    while let Some((task, later)) = rest.split_first() {
        most = most.max(task_samples(task, size, slot));
        rest = later;
    }
    most
}

/// Returns the number of samples that a task needs in a slot: those of a band, with halo, of the
/// virtual image that it writes to the slot.
fn task_samples(task: &Task, size: u16, slot: usize) -> usize
    ensures { result ≡ task_samples size slot task.now }
{
    match task {
        Task::Write(step) => match step.describes {
            Some(desc) if step.output == slot => band_samples(size, step.halo, desc),
            _ => 0,
        },
        Task::Reduce(_) => 0,
    }
}

/// Returns the number of samples in a band of `size` rows of an image, with `halo` rows above and
/// as many below; at most the number in the whole image.
fn band_samples(size: u16, halo: u16, desc: Desc) -> usize
    ensures { result ≡ band_samples size halo desc }
{
    let rows = usize::from(size) + usize::from(halo) + usize::from(halo);
    usize::from(desc.height()).min(rows) * usize::from(desc.width())
}

/// Returns the index of slot `slot` of a format among the slots of all formats.
fn slot_index(plan: &Plan, format: Format, slot: usize) -> usize
    requires { slot_index (plan_view plan.now) format slot < 2 ^ 64 }
    ensures { result ≡ slot_index (plan_view plan.now) format slot }
{
    match format {
        Format::U8 => slot,
        Format::S16 => plan.slot_count(Format::U8) + slot,
        Format::U32 => plan.slot_count(Format::U8) + plan.slot_count(Format::S16) + slot,
    }
}

// ---- blocks

/// Clears the list and fills it with blocks of these formats and sizes. On an error, the blocks
/// taken so far are given back.
pub fn take_blocks(
    blocks: &mut Vec<Block>,
    pool: &mut Pool,
    capacities: &[(Format, usize)],
) -> Result<(), AllocError>
    ensures capacities { OnOk result (map block_size blocks.new.items ≡ capacities.now) }
    ensures lent_sizes { OnOk result (map lent_size blocks.new.items ≡ capacities.now) }
    ensures lends { OnOk result
        (LendsMore pool.old pool.new (blocks_of_format blocks.new.items)) }
    ensures err { OnErr result (KeepsLent pool.old pool.new) }
    ensures adds { (format : SampleFormat) → blocks_of pool.new format
        ≤ blocks_of pool.old format + capacity_count capacities.now format }
{
    blocks.clear();
    blocks.reserve(capacities.len())?;
    match add_blocks(blocks, pool, capacities) {
        Ok(()) => Ok(()),
        Err(fault) => {
            give_back(blocks, pool);
            Err(fault)
        }
    }
}

/// Adds a block of each of these formats and sizes to the list, which must be empty.
fn add_blocks(
    blocks: &mut Vec<Block>,
    pool: &mut Pool,
    capacities: &[(Format, usize)],
) -> Result<(), AllocError>
    requires none { blocks.old.items ≡ [] }
    requires room { length capacities.now ≤ vec_capacity blocks.old }
    ensures capacities { OnOk result (map block_size blocks.new.items ≡ capacities.now) }
    ensures lent_sizes { OnOk result (map lent_size blocks.new.items ≡ capacities.now) }
    ensures lends { LendsMore pool.old pool.new (blocks_of_format blocks.new.items) }
    ensures adds { (format : SampleFormat) → blocks_of pool.new format
        ≤ blocks_of pool.old format + capacity_count capacities.now format }
{
    for k in 0..capacities.len() {
        let capacity = capacities[k];
        let block = pool.take(capacity.0, capacity.1)?;
        blocks.push_reserved(block);
    }
    Ok(())
}

/// Gives all blocks back to the pool.
pub fn give_back(blocks: &mut Vec<Block>, pool: &mut Pool)
    requires { LendsAtLeast pool.old (blocks_of_format blocks.old.items) }
    ensures lent { LendsLess pool.old pool.new (blocks_of_format blocks.old.items) }
    ensures blocks { KeepsBlockCounts pool.old pool.new }
{
    while let Some(block) = blocks.pop() {
        pool.give_back(block);
    }
}
