//! Requests that create and read distributions and extremes.
ghost use Rattle.vx_base.specs.Object.{DistributionObject, ExtremesObject, new_distribution};
ghost use Rattle.vx_base.specs.Object.{no_extremes};
ghost use Rattle.client_model.specs.Images.{create};
ghost use Rattle.client_model.specs.Statistics.{read_distribution, read_min_max};
ghost use Rattle.client_model.specs.States.{KeepsLimits};
ghost use Rattle.object_table.specs.Blocks.{KeepsBlocks};
ghost use Rattle.client_contexts.specs.Steps.{ComesTo, MayComeTo};

use crate::fault::RequestFault;
use crate::lookup::find_named;
use crate::new_objects::{hold, require_capacity};
use client_model::{Counts, Limits, Refusal, Reply};
use object_table::{Content, Distribution, Object, Table};
use std::alloc::Global;
use vx_base::{Bins, Extremes, Kind};

/// Creates a distribution with these bins. Each count is 0.
pub fn create_distribution(
    table: &mut Table,
    limits: Limits,
    bins: Bins,
) -> Result<Reply, RequestFault>
    ensures comes { MayComeTo (create limits table.old (DistributionObject (new_distribution bins)))
        table.old table.new result }
    ensures within_limits { KeepsLimits limits table.old → KeepsLimits limits table.new }
    ensures blocks { KeepsBlocks table.old.objects table.new.objects }
{
    require_capacity(table, limits, 0)?;
    let distribution = Distribution::new(table.allocator(), bins)?;
    hold(
        table,
        limits,
        Object::new(Content::Distribution(distribution)),
    )
}

/// Returns a copy of a distribution's counts, allocated with `alloc`.
pub fn read_distribution(table: &Table, alloc: Global, name: u32) -> Result<Reply, RequestFault>
    ensures { MayComeTo (read_distribution table.now name) table.now table.now result }
{
    match find_named(table, name, Kind::Distribution)?.content() {
        Content::Distribution(distribution) => {
            let mut counts = Vec::new(alloc);
            counts.extend_from_slice(distribution.counts())?;
            Ok(Reply::Counts(Counts::new(counts)))
        }
        _ => unreachable!(),
    }
}

/// Creates extremes whose numbers are all 0.
pub fn create_min_max(table: &mut Table, limits: Limits) -> Result<Reply, RequestFault>
    ensures comes { MayComeTo (create limits table.old (ExtremesObject no_extremes))
        table.old table.new result }
    ensures within_limits { KeepsLimits limits table.old → KeepsLimits limits table.new }
    ensures blocks { KeepsBlocks table.old.objects table.new.objects }
{
    require_capacity(table, limits, 0)?;
    let extremes = Extremes {
        min: 0,
        max: 0,
        min_count: 0,
        max_count: 0,
        min_at: (0, 0),
        max_at: (0, 0),
    };
    hold(table, limits, Object::new(Content::Extremes(extremes)))
}

/// Returns the extremes with this name. Refused if the name isn't live, or if its object isn't of
/// kind `Extremes`.
pub fn read_min_max(table: &Table, name: u32) -> Result<Reply, Refusal>
    ensures { ComesTo (read_min_max table.now name) table.now table.now result }
{
    match find_named(table, name, Kind::Extremes)?.content() {
        Content::Extremes(extremes) => Ok(Reply::Extremes(*extremes)),
        _ => unreachable!(),
    }
}
