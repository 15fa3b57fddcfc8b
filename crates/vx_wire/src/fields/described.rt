//! The reply that describes an image: the format, the width, the height and the valid rectangle.
ghost use Rattle.std.specs.Prelude.{◌≡◌};
ghost use Rattle.vx_wire.specs.Described.{described_bytes};

use crate::fields::format::open_format_number;
use crate::fields::rectangle::rectangle_bytes;
use client_model::Described;

/// Returns the body of the reply to QueryImage.
pub fn described_bytes(described: Described) -> [u8; 13]
    ensures { result ≡ described_bytes described }
{
    let format = open_format_number(described.format);
    let [a, b] = described.width.to_be_bytes();
    let [c, d] = described.height.to_be_bytes();
    let [e, f, g, h, i, j, k, l] = rectangle_bytes(described.valid);
    [format, a, b, c, d, e, f, g, h, i, j, k, l]
}
