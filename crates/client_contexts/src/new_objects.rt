//! Checks the limits for a client's new objects, and inserts the objects.
#![tactic(auto, using(crate::proofs::BlockLemmas::insert_steps))]

ghost use Rattle.std.specs.Prelude.{◌≡◌, ◌*◌, ◌+◌, ◌≤◌, if◌then◌else◌, IsTrue, [], Ok, Err};
ghost use Rattle.vx_base.specs.Object.{IsObject, object_bytes};
ghost use Rattle.vx_base.specs.declared.format.Format.{Format};
ghost use Rattle.pixel_pool.specs.Pool.{lent_of};
ghost use Rattle.object_table.specs.Blocks.{blocks_in, object_blocks, LendsAtLeast, KeepsBlocks};
ghost use Rattle.object_table.specs.Uses.{nodes_in};
ghost use Rattle.client_model.specs.declared.refusal.Refusal.TheVariants.{NoResources};
ghost use Rattle.client_model.specs.Context.{has_capacity};
ghost use Rattle.client_model.specs.Images.{create};
ghost use Rattle.client_model.specs.States.{KeepsLimits};
ghost use Rattle.client_contexts.specs.Steps.{MayComeTo};
ghost use Rattle.vx_base.specs.declared.desc.TheConstants.{GREATEST_BYTES};
ghost use Rattle.vx_base.specs.declared.slots.TheConstants.{GREATEST_SLOTS};

use crate::fault::RequestFault;
use client_model::{Limits, Refusal, Reply};
use object_table::{InsertFault, Object, Table};
use pixel_pool::Pool;

/// Checks that a client can hold one more object with `bytes` bytes of samples. Refused with
/// `NoResources` if all names are used, if 1,024 objects are held, or if the quota would be
/// exceeded. `bytes` must be at most the byte count of 16 images of the greatest size.
pub fn require_capacity(table: &Table, limits: Limits, bytes: usize) -> Result<(), Refusal>
    requires { bytes ≤ GREATEST_SLOTS * GREATEST_BYTES }
    ensures { result ≡ (if has_capacity limits table.now bytes then Ok tt else Err NoResources) }
{
    let charge = table.charged_bytes() + bytes as u64;
    if table.can_insert() && charge <= limits.quota() {
        Ok(())
    } else {
        Err(Refusal::NoResources)
    }
}

/// Adds a new object. The reply has the object's name. The object must have no blocks and no nodes.
/// The caller must first check the limits with `require_capacity`.
pub fn hold(table: &mut Table, limits: Limits, object: Object) -> Result<Reply, RequestFault>
    requires capacity { IsTrue (has_capacity limits table.old (object_bytes object)) }
    requires object { IsObject object }
    requires plain { nodes_in object ≡ [] }
    requires no_blocks { (format : Format) → object_blocks object format ≡ 0 }
    ensures comes { MayComeTo (create limits table.old object) table.old table.new result }
    ensures within_limits { KeepsLimits limits table.old → KeepsLimits limits table.new }
    ensures blocks { KeepsBlocks table.old.objects table.new.objects }
{
    match table.insert(object) {
        Ok(name) => Ok(Reply::Name(name)),
        Err(failed) => Err(RequestFault::from(failed.fault)),
    }
}

/// Adds a new image or delay. The reply has the object's name. If there is no memory for the new
/// entry of the table, the object's blocks go back to the pool. The caller must first check the
/// limits with `require_capacity`.
pub fn hold_images(
    table: &mut Table,
    pool: &mut Pool,
    limits: Limits,
    object: Object,
) -> Result<Reply, RequestFault>
    requires capacity { IsTrue (has_capacity limits table.old (object_bytes object)) }
    requires object { IsObject object }
    requires plain { nodes_in object ≡ [] }
    requires owns { LendsAtLeast pool.old (object_blocks object) }
    ensures comes { MayComeTo (create limits table.old object) table.old table.new result }
    ensures within_limits { KeepsLimits limits table.old → KeepsLimits limits table.new }
    ensures balances { (format : Format) →
        lent_of pool.new format + blocks_in table.old.objects format + object_blocks object format
        ≡ lent_of pool.old format + blocks_in table.new.objects format }
{
    match table.insert(object) {
        Ok(name) => Ok(Reply::Name(name)),
        Err(InsertFault { fault, object }) => {
            object.end(pool);
            Err(RequestFault::from(fault))
        }
    }
}
