//! Slices of samples.

/// The samples of an image or of a band of its rows, in row-major order and in the number type of
/// the image's format.
#[derive(Clone, Copy)]
pub enum Slice<'a> {
    U8(&'a [u8]),
    S16(&'a [i16]),
    U32(&'a [u32]),
}
