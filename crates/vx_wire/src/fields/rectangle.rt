//! Rectangles: the four bounds, which are one field.
ghost use Rattle.std.specs.Prelude.{◌≡◌};
ghost use Rattle.vx_wire.specs.Fields.{Takes};
ghost use Rattle.vx_wire.specs.Rectangle.{take_rectangle, rectangle_bytes};

use crate::body_fault::BodyFault;
use crate::fields::{Field, Fields};
use vx_base::Rect;

impl Field for Rect {
    ghost grammar = { take_rectangle };

    /// Reads a rectangle: its bounds are all 0, or each start is less than its end. `InvalidValue`:
    /// neither is the case.
    fn take(fields: &mut Fields) -> Result<Rect, BodyFault> {
        let x0 = fields.short()?;
        let y0 = fields.short()?;
        let x1 = fields.short()?;
        let y1 = fields.short()?;
        match Rect::new(x0, y0, x1, y1) {
            Some(rectangle) => Ok(rectangle),
            None => Err(BodyFault::InvalidValue),
        }
    }
}

/// Returns the bytes of a rectangle.
pub fn rectangle_bytes(rectangle: Rect) -> [u8; 8]
    ensures { result ≡ rectangle_bytes rectangle }
{
    let [a, b] = rectangle.x0().to_be_bytes();
    let [c, d] = rectangle.y0().to_be_bytes();
    let [e, f] = rectangle.x1().to_be_bytes();
    let [g, h] = rectangle.y1().to_be_bytes();
    [a, b, c, d, e, f, g, h]
}
