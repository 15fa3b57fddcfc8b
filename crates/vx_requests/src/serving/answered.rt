//! Replies to frames, and how they are written.
ghost use Rattle.std.specs.Prelude.{◌≡◌, ◌<◌, ◌^◌, IfOk};
ghost use Rattle.vx_requests.specs.Stream.Transfer.{Sends};
ghost use Rattle.vx_requests.specs.Frame.Frames.{reply_bytes};
ghost use Rattle.vx_requests.specs.Serving.Clients.{states_of, spelled_frame};
ghost use Rattle.vx_requests.specs.Serving.Turn.{reply_frame, said_in};
ghost use Rattle.client_contexts.specs.World.{state_of};
ghost use Rattle.vx_wire.specs.Replies.{said_of};

use crate::frame::{code_of, write_image_reply, write_image_text_reply, write_reply};
use crate::stream::{Sink, StreamFault};
use client_contexts::Runtime;
use client_model::Reply;
use vx_base::ObjRef;

/// The content of a reply.
#[derive(Drop)]
pub enum ReplyContent {
    /// A reply that was computed.
    Made(Reply),
    /// The reply to ReadImage of this image. The samples are written from the image without a copy.
    Samples(ObjRef),
    /// The reply to ReadImagePgm of this image. The samples are written from the image without a
    /// copy.
    Text(ObjRef),
}

/// The content of a reply, with the client and the op of the request frame.
#[derive(Drop)]
pub struct Answered {
    pub client: u16,
    pub op: u8,
    pub content: ReplyContent,
}

/// Writes the frame of a reply, flushes the sink, and returns the reply's code. An image's samples
/// are read from `runtime`, which must be in the state after the request.
pub fn write_answered<K: Sink>(
    sink: &mut K,
    runtime: &Runtime,
    answered: &Answered,
) -> Result<u8, StreamFault>
    requires { K.failures sink.old < 2 ^ 62 }
    ensures sent { Sends K.taken K.failures sink.old sink.new
        (reply_bytes (reply_frame runtime.now.limits (states_of runtime.now) answered.now))
        result }
    ensures code { IfOk result (λ code.
        code ≡ (reply_frame runtime.now.limits (states_of runtime.now) answered.now).code) }
{
    let (client, op) = (answered.client, answered.op);
    write_content(sink, runtime, client, client, op, &answered.content)
}

/// Writes the frame of a reply to `client`, whose number in the runtime is `number`. Flushes the
/// sink, and returns the reply's code. An image's samples are read from `runtime`, which must be in
/// the state after the request.
pub fn write_content<K: Sink>(
    sink: &mut K,
    runtime: &Runtime,
    number: u16,
    client: u16,
    op: u8,
    content: &ReplyContent,
) -> Result<u8, StreamFault>
    requires { K.failures sink.old < 2 ^ 62 }
    ensures sent { Sends K.taken K.failures sink.old sink.new
        (reply_bytes (spelled_frame client op
        (said_in runtime.now.limits (state_of number runtime.now) content.now)))
        result }
    ensures code { IfOk result (λ code.
        code ≡ (said_in runtime.now.limits (state_of number runtime.now) content.now).code) }
{
    match content {
        ReplyContent::Made(reply) => write_made_reply(sink, client, op, reply),
        ReplyContent::Samples(image) => match runtime.image(number, *image) {
            Ok(image) => {
                write_image_reply(sink, client, op, image)?;
                Ok(0)
            }
            Err(code) => write_made_reply(sink, client, op, &Reply::Refused(code)),
        },
        ReplyContent::Text(image) => match runtime.text_image(number, *image) {
            Ok(image) => {
                write_image_text_reply(sink, client, op, image)?;
                Ok(0)
            }
            Err(code) => write_made_reply(sink, client, op, &Reply::Refused(code)),
        },
    }
}

/// Writes the frame of a reply that was computed, flushes the sink, and returns the reply's code.
fn write_made_reply<K: Sink>(
    sink: &mut K,
    client: u16,
    op: u8,
    reply: &Reply,
) -> Result<u8, StreamFault>
    requires { K.failures sink.old < 2 ^ 62 }
    ensures sent { Sends K.taken K.failures sink.old sink.new
        (reply_bytes (spelled_frame client op (said_of reply.now))) result }
    ensures code { IfOk result (λ code. code ≡ (said_of reply.now).code) }
{
    write_reply(sink, client, op, reply)?;
    Ok(code_of(reply))
}
