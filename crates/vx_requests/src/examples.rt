//! Worked examples: lengths, and frames in bytes.
ghost use Rattle.std.specs.Prelude.{◌≡◌, [], ◌∷◌, None};
ghost use Rattle.client_model.specs.declared.request.Request.TheVariants.{ReadImage, RemoveNode};
ghost use Rattle.client_model.specs.declared.reply.Reply.TheVariants.{Node};
ghost use Rattle.vx_requests.specs.Frame.Frames.{frame_bytes, request_frame, reply_bytes};
ghost use Rattle.vx_requests.specs.Frame.Frames.{IsLength};
ghost use Rattle.vx_requests.specs.Serving.Clients.{spelled_frame};
ghost use Rattle.vx_wire.specs.Replies.{said_of};

/// The least and the greatest length of a request frame, and the two lengths that are just out of
/// range.
pub fn lengths()
    ensures least { IsLength 3 }
    ensures greatest { IsLength 536870912 }
    ensures too_short { IsLength 2 → ⊥ }
    ensures too_long { IsLength 536870913 → ⊥ }
{}

/// Two request frames of client 258: to read image 7, and to remove node 3 from graph 7.
pub fn frames()
    ensures read { frame_bytes (request_frame 258 (ReadImage (record { name = 7; slot = None })))
        ≡ 0 ∷ 0 ∷ 0 ∷ 8 ∷ 1 ∷ 2 ∷ 7 ∷ 0 ∷ 0 ∷ 0 ∷ 7 ∷ 255 ∷ [] }
    ensures removed { frame_bytes (request_frame 258 (RemoveNode 7 3))
        ≡ 0 ∷ 0 ∷ 0 ∷ 11 ∷ 1 ∷ 2 ∷ 21 ∷ 0 ∷ 0 ∷ 0 ∷ 7 ∷ 0 ∷ 0 ∷ 0 ∷ 3 ∷ [] }
{}

/// The reply frame that gives client 258 the number of a node that was added.
pub fn replies()
    ensures { reply_bytes (spelled_frame 258 20 (said_of (Node 3)))
        ≡ 0 ∷ 0 ∷ 0 ∷ 8 ∷ 1 ∷ 2 ∷ 20 ∷ 0 ∷ 0 ∷ 0 ∷ 0 ∷ 3 ∷ [] }
{}
