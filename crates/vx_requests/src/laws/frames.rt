//! Laws of the frames of requests.
ghost use Rattle.std.specs.Prelude.{◌<◌, ◌^◌, ℕ, IsTrue};
ghost use Rattle.client_model.specs.declared.request.Request.{Request};
ghost use Rattle.client_model.specs.Request.{IsRequest};
ghost use Rattle.vx_requests.specs.Frame.Frames.{IsFrame, request_frame, fits_a_frame};

/// A request fits a frame unless it writes a text of more than 536,870,904 bytes.
pub fn only_long_texts_do_not_fit()
    ensures fits { (client : ℕ) (request : Request) → client < 2 ^ 16 → IsRequest request →
        IsTrue (fits_a_frame request) → IsFrame (request_frame client request) }
    ensures no_other { (client : ℕ) (request : Request) → IsFrame (request_frame client request) →
        IsTrue (fits_a_frame request) }
{}
