//! Laws of replies.
ghost use Rattle.std.specs.Prelude.{◌≡◌, ℕ, ◌<◌, ◌≤◌, List, [], length, Option, Some, Ok};
ghost use Rattle.client_model.specs.Limits.{LimitsValue};
ghost use Rattle.client_model.specs.Context.{State};
ghost use Rattle.vx_requests.specs.declared.serving.summary.Summary.{Summary};
ghost use Rattle.vx_requests.specs.Frame.Frames.{Frame, ReplyFrame, IsFrame, frame_bytes};
ghost use Rattle.vx_requests.specs.Frame.Frames.{reply_bytes};
ghost use Rattle.vx_requests.specs.Serving.Turn.{IsReply, SameStates};
ghost use Rattle.vx_requests.specs.Serving.OneFrame.{ServesOneFrame};
ghost use Rattle.vx_requests.specs.Serving.LongReplies.{AsksForLongReply};
ghost use Rattle.vx_requests.specs.Serving.Session.{Session};

/// Only ReadImage, ReadImagePgm and ReadDistribution have replies of more than 28 bytes. A frame
/// with a reply of at least 28 bytes changes no state.
pub fn long_replies()
    ensures frames { (limits : LimitsValue) (f : Frame) (old new : ℕ → State) (reply : ReplyFrame) →
        IsReply limits f old new reply → 28 < length (reply_bytes reply) → AsksForLongReply f }
    ensures states { (limits : LimitsValue) (f : Frame) (old new : ℕ → State) (reply : ReplyFrame) →
        IsReply limits f old new reply → 28 ≤ length (reply_bytes reply) → SameStates old new }
{}

/// A frame that is served alone is a session of one frame: the headline, in terms of a single
/// reply.
pub fn one_frame()
    ensures one_session { (limits : LimitsValue) (read written : List ℕ) (old new : ℕ → State) →
        ServesOneFrame limits read written old new →
        (summary : Summary) × Session limits (Some read) (Some []) (Some []) (Some written)
        old new (Ok summary) }
    ensures one_reply { (limits : LimitsValue) (f : Frame) (left taken : Option (List ℕ))
        (old new : ℕ → State) (summary : Summary) → IsFrame f →
        Session limits (Some (frame_bytes f)) left (Some []) taken old new (Ok summary) →
        (written : List ℕ) × (taken ≡ Some written)
        × ServesOneFrame limits (frame_bytes f) written old new }
{}
