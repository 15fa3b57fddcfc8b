//! Laws of streams and of their clients. A frame whose reply is NO_MEMORY is lost; all others are
//! kept.
ghost use Rattle.std.specs.Prelude.{◌≡◌, ℕ, ◌<◌, false, List, [], ◌++◌, ◌==◌, map, All, Option};
ghost use Rattle.std.specs.Prelude.{Some, IfSome, IfOk, Result};
ghost use Rattle.vx_base.specs.Reference.{Reference};
ghost use Rattle.vx_base.specs.Image.{IsImage};
ghost use Rattle.client_model.specs.Limits.{LimitsValue};
ghost use Rattle.client_model.specs.Context.{State};
ghost use Rattle.client_model.specs.Operands.{image_of};
ghost use Rattle.client_model.specs.States.{KeepsLimits};
ghost use Rattle.vx_requests.specs.declared.stream.fault.StreamFault.{StreamFault};
ghost use Rattle.vx_requests.specs.declared.serving.summary.Summary.{Summary};
ghost use Rattle.vx_requests.specs.Frame.Frames.{Frame, IsFrame, frame_bytes, Splits};
ghost use Rattle.vx_requests.specs.Serving.Clients.{ReceivedFrame, mine, sent_to, kept_replies};
ghost use Rattle.vx_requests.specs.Serving.Clients.{alone};
ghost use Rattle.vx_requests.specs.Serving.Clients.{after, served, frames_of};
ghost use Rattle.vx_requests.specs.Serving.Answer.{answer};
ghost use Rattle.vx_requests.specs.Serving.Ends.{ReadsToARest};
ghost use Rattle.vx_requests.specs.Serving.Session.{Session};

/// No frame is a proper prefix of another frame.
pub fn no_prefix()
    ensures { (f g : Frame) (more : List ℕ) → IsFrame f → IsFrame g →
        frame_bytes g ≡ frame_bytes f ++ more → more ≡ [] }
{}

/// Any stream of bytes splits into whole frames and a rest that doesn't begin with a whole frame.
pub fn splits()
    ensures { (stream : List ℕ) → All (λ byte. byte < 256) stream →
        (frames : List Frame) × (rest : List ℕ) × Splits stream frames rest }
{}

/// A stream splits into frames and a rest in only one way.
pub fn one_split()
    ensures { (stream : List ℕ) (fs gs : List Frame) (r s : List ℕ) →
        Splits stream fs r → Splits stream gs s → (fs ≡ gs) × (r ≡ s) }
{}

/// A client gets the same replies to its kept frames as if only these frames were sent.
pub fn each_alone()
    ensures { (limits : LimitsValue) (start : ℕ → State) (marked : List ReceivedFrame)
        (client : ℕ) →
        kept_replies client marked (served (answer limits) start marked)
        ≡ alone (answer limits) (start client) (mine client marked) }
{}

/// If all frames are of one client and no frame was lost, `served` gives the same replies as
/// `alone`, which knows only this client.
pub fn one_client()
    ensures { (limits : LimitsValue) (start : ℕ → State) (marked : List ReceivedFrame)
        (client : ℕ) →
        All (λ m. (m.frame.client ≡ client) × (m.lost ≡ false)) marked →
        served (answer limits) start marked
        ≡ alone (answer limits) (start client) (frames_of marked) }
{}

/// Let a client start in the same state in two streams, and have the same kept frames in both. The
/// client gets the same replies to these frames in both streams.
pub fn isolated()
    ensures { (limits : LimitsValue) (start other : ℕ → State)
        (marked others : List ReceivedFrame) (client : ℕ) →
        start client ≡ other client → mine client marked ≡ mine client others →
        kept_replies client marked (served (answer limits) start marked)
        ≡ kept_replies client others (served (answer limits) other others) }
{}

/// Several servers may share a stream if each gets all frames of its own clients. Each client then
/// gets the same replies to its kept frames as from a single server.
pub fn over_servers()
    ensures { (limits : LimitsValue) (start : ℕ → State) (server : ℕ → ℕ)
        (marked : List ReceivedFrame) (client : ℕ) →
        kept_replies client (sent_to server (server client) marked)
        (served (answer limits) start (sent_to server (server client) marked))
        ≡ kept_replies client marked (served (answer limits) start marked) }
{}

/// A frame was lost exactly if the code of its reply is 1, NO_MEMORY.
pub fn lost_shows()
    ensures { (limits : LimitsValue) (start : ℕ → State) (marked : List ReceivedFrame) →
        map (λ r. r.code == 1) (served (answer limits) start marked) ≡ map (λ m. m.lost) marked }
{}

/// Let the source's bytes be known. Let `serve` succeed, or fail with `Truncated` or `BadLength`.
/// The source's bytes then split into frames and a rest: the frames that `serve` read, and all
/// bytes after them.
pub fn session_splits()
    ensures { (limits : LimitsValue) (input more : List ℕ) (taken_old taken_new : Option (List ℕ))
        (old new : ℕ → State) (result : Result Summary StreamFault) →
        (session : Session limits (Some input) (Some more) taken_old taken_new old new result) →
        ReadsToARest result → Splits input (frames_of session.marked) (session.rest ++ more) }
{}

/// A client's frames preserve the invariant of its context, `KeepsLimits`. Each image that a
/// reference names then satisfies `IsImage`: each sample is in the range of the image's format, and
/// is 0 outside the valid rectangle.
pub fn states_keep()
    ensures limits { (limits : LimitsValue) (state : State) (frames : List Frame) →
        All IsFrame frames → IfSome state (KeepsLimits limits) →
        IfSome (after (answer limits) state frames) (KeepsLimits limits) }
    ensures images { (limits : LimitsValue) (state : State) (frames : List Frame)
        (cell : Reference) →
        All IsFrame frames → IfSome state (KeepsLimits limits) →
        IfSome (after (answer limits) state frames)
        (λ c. IfOk (image_of c.objects cell) IsImage) }
{}

/// A call of `serve` preserves the invariant of each client's context, however the call ends.
pub fn session_keeps()
    ensures { (limits : LimitsValue) (left_old left_new taken_old taken_new : Option (List ℕ))
        (old new : ℕ → State) (result : Result Summary StreamFault) (client : ℕ) →
        Session limits left_old left_new taken_old taken_new old new result →
        IfSome (old client) (KeepsLimits limits) → IfSome (new client) (KeepsLimits limits) }
{}
