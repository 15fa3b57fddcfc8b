//! The common types of the runtime, and the definitions behind its contracts.
//!
//! Each type keeps its invariant by construction. A `Rect` is in canonical form, a `Desc` is within
//! the limits, a `NodeSpec` has the parameters of its function, and a `Lut` has an entry for each
//! sample value. `specs/` has the model's basic definitions. There, a sample is a whole number, a
//! rectangle is a set of pixels, and an image is a table with one sample for each pixel. Each
//! vision function has a formula. `laws` states facts about these definitions, and `examples`
//! evaluates some of the definitions.
#![tactic(auto)]

mod bins;
mod border;
mod code;
mod convolution;
mod desc;
pub mod examples;
mod extremes;
mod format;
mod function;
mod kind;
pub mod laws;
mod lut;
mod narrow;
mod node;
mod numbered;
mod output;
mod partial_desc;
mod picture;
mod policy;
mod rect;
mod reference;
mod samples;
mod shape;
mod slots;
mod threshold;
mod virtual_image;

pub use bins::{Bins, GREATEST_BINS};
pub use border::Border;
pub use code::Code;
pub use convolution::{Convolution, GREATEST_COEFFICIENTS};
pub use desc::{Desc, GREATEST_BYTES, GREATEST_SIDE};
pub use extremes::Extremes;
pub use format::Format;
pub use function::{Function, Parameters};
pub use kind::Kind;
pub use lut::Lut;
pub use narrow::{narrow_s16, narrow_u8};
pub use node::{GREATEST_NODES, Node, NodeSpec};
pub use numbered::Numbered;
pub use output::Output;
pub use partial_desc::PartialDesc;
pub use picture::Picture;
pub use policy::Policy;
pub use rect::Rect;
pub use reference::ObjRef;
pub use samples::{Samples, prove_bytes, prove_shorts};
pub use slots::{GREATEST_SLOTS, SlotCount};
pub use threshold::{ThresholdKind, ThresholdRule};
pub use virtual_image::VirtualImage;
