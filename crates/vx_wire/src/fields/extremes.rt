//! The reply to ReadMinMax: the least and the greatest sample, the number of pixels with each, and
//! the first pixel with each.
ghost use Rattle.std.specs.Prelude.{◌≡◌};
ghost use Rattle.vx_wire.specs.Extremes.{pixel_bytes, extremes_bytes};

use vx_base::Extremes;

/// Returns the bytes of a pixel's place: the column, then the row.
fn pixel_bytes(pixel: (u16, u16)) -> [u8; 4]
    ensures { result ≡ pixel_bytes pixel }
{
    let [a, b] = pixel.0.to_be_bytes();
    let [c, d] = pixel.1.to_be_bytes();
    [a, b, c, d]
}

/// Returns the bytes of extremes.
pub fn extremes_bytes(extremes: Extremes) -> [u8; 20]
    ensures { result ≡ extremes_bytes extremes }
{
    let [a, b] = extremes.min.to_be_bytes();
    let [c, d] = extremes.max.to_be_bytes();
    let [e, f, g, h] = extremes.min_count.to_be_bytes();
    let [i, j, k, l] = extremes.max_count.to_be_bytes();
    let [m, n, o, p] = pixel_bytes(extremes.min_at);
    let [q, r, s, t] = pixel_bytes(extremes.max_at);
    [a, b, c, d, e, f, g, h, i, j, k, l, m, n, o, p, q, r, s, t]
}
