//! Bytes that are exactly one frame.
ghost use Rattle.std.specs.Prelude.{◌≡◌, ◌≤◌, ◌++◌, true, length};
ghost use Rattle.vx_requests.specs.Frame.Frames.{Frame, IsFrame, frame_bytes, said_length};

use crate::frame::limits::{GREATEST_LENGTH, LEAST_LENGTH};

/// Returns the length that the first four bytes of a frame encode: the number of bytes after them.
pub fn said_length(bytes: &[u8]) -> u32
    requires { 4 ≤ length bytes.now }
    ensures { result ≡ said_length bytes.now }
{
    u32::from_be_bytes([bytes[0], bytes[1], bytes[2], bytes[3]])
}

/// Returns whether two slices, one after the other, are exactly one request frame. The first slice
/// has to have the four bytes of the frame's length.
pub fn is_one_frame(front: &[u8], back: &[u8]) -> bool
    ensures frame { result ≡ true → (frame : Frame) × IsFrame frame ×
        (front.now ++ back.now ≡ frame_bytes frame) }
    ensures front { result ≡ true → 4 ≤ length front.now }
    ensures other { (frame : Frame) → IsFrame frame → front.now ++ back.now ≡ frame_bytes frame →
        4 ≤ length front.now → result ≡ true }
{
    if front.len() < 4 {
        return false;
    }
    let length = said_length(front);
    if length < LEAST_LENGTH || length > GREATEST_LENGTH {
        return false;
    }
    front.len() + back.len() == length as usize + 4
}
