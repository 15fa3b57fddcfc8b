//! Laws about the definitions, as contracts of functions that do nothing.
ghost use Rattle.std.specs.Prelude.{◌≡◌, ℕ, List, [], None, All, true, Option, Some, Ok};
ghost use Rattle.std.specs.Io.KnownBytes.{Consumes, Appends};
ghost use Rattle.vx_requests.specs.Frame.Frames.{ReplyFrame, IsFrame, frame_bytes, reply_bytes};
ghost use Rattle.vx_requests.specs.Serving.Answer.{answer};
ghost use Rattle.vx_requests.specs.Serving.Clients.{ReceivedFrame, served, states_after};
ghost use Rattle.vx_requests.specs.Serving.Lost.{MayBeLost};
ghost use Rattle.vx_requests.specs.Serving.OneFrame.{ServesOneFrame};
ghost use Rattle.vx_requests.specs.Serving.Turn.{Turn};
ghost use Rattle.connections.specs.Connections.{ConnectionsValue, Connects, StaysOpen, Answers};
ghost use Rattle.connections.specs.Connections.{states_in};
ghost use Rattle.connections.specs.History.{Event, History, NeverCloses, received_of, replies_of};

/// Let a connection be opened. Whatever happens then to any connections, in any interleaving, until
/// this connection is closed: the replies to its frames are those of a server of its own that gets
/// these frames alone and begins with no context. So are the states of its clients. A frame is lost
/// only if `MayBeLost` allows it.
pub fn each_as_if_alone()
    ensures replies { (before opened after : ConnectionsValue) (connection : ℕ)
        (events : List Event) → Connects connection before opened → History opened events after →
        NeverCloses connection events →
        replies_of connection events
        ≡ served (answer before.limits) (λ _. None) (received_of connection events) }
    ensures states { (before opened after : ConnectionsValue) (connection : ℕ)
        (events : List Event) → Connects connection before opened → History opened events after →
        NeverCloses connection events → (client : ℕ) →
        states_in after connection client
        ≡ states_after (answer before.limits) (λ _. None) (received_of connection events) client }
    ensures lost { (before opened after : ConnectionsValue) (connection : ℕ)
        (events : List Event) → Connects connection before opened → History opened events after →
        NeverCloses connection events →
        All (λ m. m.lost ≡ true → MayBeLost m.frame) (received_of connection events) }
{}

/// A turn that serves a frame of an open connection is an event of a history: the bytes that were
/// read are the frame, and the bytes that were written are its reply.
pub fn served_turns()
    ensures { (connection code : ℕ) (old new : ConnectionsValue)
        (left_old left_new taken_old taken_new : Option (List ℕ)) →
        StaysOpen connection old new →
        Turn old.limits left_old left_new taken_old taken_new
        (states_in old connection) (states_in new connection) (Ok (Some code)) →
        (m : ReceivedFrame) × (reply : ReplyFrame) × IsFrame m.frame
        × Consumes left_old left_new (frame_bytes m.frame)
        × Appends taken_old taken_new (reply_bytes reply)
        × Answers connection m reply old new }
{}

/// A frame of an open connection that is served alone is an event of a history.
pub fn served_frames()
    ensures { (connection : ℕ) (old new : ConnectionsValue) (read written : List ℕ) →
        StaysOpen connection old new →
        ServesOneFrame old.limits read written (states_in old connection) (states_in new connection)
        → (m : ReceivedFrame) × (reply : ReplyFrame) × IsFrame m.frame
        × (read ≡ frame_bytes m.frame) × (written ≡ reply_bytes reply)
        × Answers connection m reply old new }
{}
