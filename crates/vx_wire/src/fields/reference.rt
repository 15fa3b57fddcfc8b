//! References to objects: a name, and a slot. Slot 255 means the object itself.
ghost use Rattle.std.specs.Prelude.{◌≡◌, ◌<◌};
ghost use Rattle.std.specs.Option.{ForSome};
ghost use Rattle.vx_wire.specs.Fields.{Takes};
ghost use Rattle.vx_wire.specs.Reference.{slot_numbered, take_reference, reference_bytes};

use crate::body_fault::BodyFault;
use crate::fields::{Field, Fields};
use vx_base::ObjRef;

impl Field for ObjRef {
    ghost grammar = { take_reference };

    /// Reads a reference.
    fn take(fields: &mut Fields) -> Result<ObjRef, BodyFault> {
        let name = fields.long()?;
        let slot = fields.byte()?;
        Ok(ObjRef::new(name, slot_numbered(slot)))
    }
}

/// Returns the slot with this number, or `None` for 255.
fn slot_numbered(number: u8) -> Option<u8>
    ensures value { result ≡ slot_numbered number }
    ensures limit { ForSome result (λ k. k < 255) }
{
    if number == 255 { None } else { Some(number) }
}

/// Returns the bytes of a reference.
pub fn reference_bytes(reference: ObjRef) -> [u8; 5]
    ensures { result ≡ reference_bytes reference }
{
    let [a, b, c, d] = reference.name().to_be_bytes();
    [a, b, c, d, reference.slot().unwrap_or(255)]
}
