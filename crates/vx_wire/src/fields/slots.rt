//! The number of slots of a delay.
ghost use Rattle.vx_wire.specs.Fields.{Takes};
ghost use Rattle.vx_wire.specs.Slots.{take_slots};

use crate::body_fault::BodyFault;
use crate::fields::{Field, Fields};
use vx_base::SlotCount;

impl Field for SlotCount {
    ghost grammar = { take_slots };

    /// Reads the number of slots: 1 to 16. `InvalidValue`: the number is out of range.
    fn take(fields: &mut Fields) -> Result<SlotCount, BodyFault> {
        let number = fields.byte()?;
        match SlotCount::new(number) {
            Some(slots) => Ok(slots),
            None => Err(BodyFault::InvalidValue),
        }
    }
}
