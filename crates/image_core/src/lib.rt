//! Input and output images over slices of samples, and the traits by which kernels describe what
//! they write.
//!
//! - An `Image` borrows the samples of an input image, or of a `Band` of its rows. Its samples are
//!   0 outside the valid rectangle, and outside the band.
//! - An `ImageMut` borrows the samples of an output image, or of a band of its rows. A kernel
//!   describes the whole image, and only the band's rows are written. So every kernel can also
//!   compute bands.
//! - A `Sample` is the number type of a format's samples. Images are read and written in this type.
//! - A `Formula` gives the sample at each pixel of a rectangle; `ImageMut::write` writes an image
//!   from a `Formula`. A `RowFormula` gives the samples of one piece of a row at a time, with
//!   scratch memory; `ImageMut::write_by_rows` writes an image from a `RowFormula`. Samples outside
//!   the valid rectangle become 0.
//! - A `RowUpdate` gives each sample's new value from its old one; `ImageMut::update` applies it in
//!   place.
//! - A `SecondInput` is a node's second operand.
#![tactic(auto)]

mod band;
mod formula;
mod image;
mod image_mut;
mod number;
mod row_update;
mod rows;
mod sample;
mod second;
mod slice;
mod whole;

pub use band::Band;
pub use formula::{Formula, RowFormula};
pub use image::Image;
pub use image_mut::ImageMut;
pub use number::Number;
pub use row_update::RowUpdate;
pub use rows::{clear_rows, set_all};
pub use sample::Sample;
pub use second::SecondInput;
pub use slice::Slice;
pub use whole::Whole;
