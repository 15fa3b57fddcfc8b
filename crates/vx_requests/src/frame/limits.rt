//! The limits of a frame's length.
ghost use Rattle.std.specs.Prelude.{◌≡◌};
ghost use Rattle.vx_requests.specs.Frame.Frames.{fits_a_frame};

use client_model::Request;

/// The least length of a request frame: the client and the op.
pub const LEAST_LENGTH: u32 = 3;

/// The greatest length of a request frame: 2^29. The length counts the bytes after the length
/// field.
pub const GREATEST_LENGTH: u32 = 536_870_912;

/// The most bytes of a text in a request frame. The frame's length also counts the 8 bytes of the
/// client, the op and the reference before the text.
pub const GREATEST_TEXT: usize = GREATEST_LENGTH as usize - 8;

/// Returns whether a request fits a frame: every request does, unless it has a text of more than
/// 536,870,904 bytes.
pub fn fits_a_frame(request: &Request) -> bool
    ensures { result ≡ fits_a_frame request.now }
{
    match request {
        Request::WriteImagePgm(_, text) => text.bytes().len() <= GREATEST_TEXT,
        _ => true,
    }
}
