//! Frames: reads the parts of a request frame, and writes whole request and reply frames; reads and
//! writes samples.

mod limits;
mod one_frame;
mod reader;
mod replies;
mod requests;
mod samples;

pub use limits::fits_a_frame;
pub use one_frame::{is_one_frame, said_length};
pub use reader::{Reader, number_of_two};
pub use replies::{code_of, write_image_reply, write_image_text_reply, write_reply};
pub use requests::write_request;
