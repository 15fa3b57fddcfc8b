//! Requests that create lookup tables, thresholds and convolutions.
ghost use Rattle.vx_base.specs.Object.{LutObject, ThresholdObject, ConvolutionObject};
ghost use Rattle.client_model.specs.Images.{create};
ghost use Rattle.client_model.specs.States.{KeepsLimits};
ghost use Rattle.object_table.specs.Blocks.{KeepsBlocks};
ghost use Rattle.client_contexts.specs.Steps.{MayComeTo};

use crate::fault::RequestFault;
use crate::new_objects::{hold, require_capacity};
use client_model::{Limits, Reply};
use object_table::{Content, Object, Table};
use vx_base::{Convolution, Lut, ThresholdRule};

/// Creates a copy of this lookup table.
pub fn create_lut(table: &mut Table, limits: Limits, lut: &Lut) -> Result<Reply, RequestFault>
    ensures comes { MayComeTo (create limits table.old (LutObject lut.now))
        table.old table.new result }
    ensures within_limits { KeepsLimits limits table.old → KeepsLimits limits table.new }
    ensures blocks { KeepsBlocks table.old.objects table.new.objects }
{
    require_capacity(table, limits, 0)?;
    let copy = lut.copy(table.allocator())?;
    hold(table, limits, Object::new(Content::Lut(copy)))
}

/// Creates a threshold.
pub fn create_threshold(
    table: &mut Table,
    limits: Limits,
    threshold: ThresholdRule,
) -> Result<Reply, RequestFault>
    ensures comes { MayComeTo (create limits table.old (ThresholdObject threshold))
        table.old table.new result }
    ensures within_limits { KeepsLimits limits table.old → KeepsLimits limits table.new }
    ensures blocks { KeepsBlocks table.old.objects table.new.objects }
{
    require_capacity(table, limits, 0)?;
    let _format = threshold.format();
    hold(table, limits, Object::new(Content::Threshold(threshold)))
}

/// Creates a copy of this convolution.
pub fn create_convolution(
    table: &mut Table,
    limits: Limits,
    convolution: &Convolution,
) -> Result<Reply, RequestFault>
    ensures comes { MayComeTo (create limits table.old (ConvolutionObject convolution.now))
        table.old table.new result }
    ensures within_limits { KeepsLimits limits table.old → KeepsLimits limits table.new }
    ensures blocks { KeepsBlocks table.old.objects table.new.objects }
{
    require_capacity(table, limits, 0)?;
    convolution.prove_convolution();
    hold(
        table,
        limits,
        Object::new(Content::Convolution(convolution.copy())),
    )
}
