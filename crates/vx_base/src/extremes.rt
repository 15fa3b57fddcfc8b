//! The extremes of an image's samples.

/// The least and the greatest valid sample of an image (OpenVX 1.3, "Min, Max Location"). For each
/// of the two: the number of valid pixels that have it, and the column and row of the first such
/// pixel in row-major order. All eight numbers are 0 if the image has no valid pixel.
#[derive(Clone, Copy, PartialEq, Eq, Debug)]
pub struct Extremes {
    pub min: i16,
    pub max: i16,
    pub min_count: u32,
    pub max_count: u32,
    pub min_at: (u16, u16),
    pub max_at: (u16, u16),
}
