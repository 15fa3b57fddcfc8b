//! Reads the payload of a frame (the client, the op and the body), and answers the frame.
ghost use Rattle.std.specs.Prelude.{◌≡◌, ℕ, ◌+◌, ◌<◌, ◌≤◌, ◌^◌, List, length, replicate};
ghost use Rattle.std.specs.Prelude.{All, Ok, IfOk};
ghost use Rattle.client_model.specs.Limits.{LimitsValue};
ghost use Rattle.client_model.specs.Context.{State};
ghost use Rattle.vx_requests.specs.Frame.Frames.{IsLength, frame_of, payload};
ghost use Rattle.vx_requests.specs.Serving.Clients.{states_of};
ghost use Rattle.vx_requests.specs.Frame.Reading.{CanRead, KeepsCount};
ghost use Rattle.vx_requests.specs.Serving.Turn.{IsReply, reply_frame, AnswersBody};
ghost use Rattle.vx_requests.specs.Serving.Turn.{AnswersPayload};
ghost use Rattle.vx_wire.specs.Requests.{request_of};

use crate::frame::{Reader, number_of_two};
use crate::serving::answered::{Answered, ReplyContent};
use crate::serving::images::answer_write_image;
use crate::serving::texts::answer_write_image_pgm;
use crate::stream::{Source, StreamFault};
use client_contexts::{NoMemory, Runtime};
use client_model::{Reply, Request};
use std::alloc::Global;
use vx_base::Code;
use vx_wire::{Op, parse};

/// The longest payload that is read into a fixed buffer: the client, the op and a body of 64 bytes.
const SMALL: usize = 67;

/// A whole request frame, whose body is borrowed from the bytes that were read.
#[derive(Clone, Copy)]
struct RequestFrame<'a> {
    client: u16,
    op: u8,
    body: &'a [u8],
}

/// Reads a payload of `length` bytes, and answers its frame.
pub fn answer_payload<S: Source>(
    alloc: Global,
    reader: &mut Reader<S>,
    runtime: &mut Runtime,
    length: u32,
) -> Result<Answered, StreamFault>
    requires length_ok { IsLength length }
    requires can_read { CanRead S.reads S.failures reader.old }
    ensures answered { AnswersPayload runtime.old.limits
        (S.left reader.old.source.now) (S.left reader.new.source.now)
        (states_of runtime.old) (states_of runtime.new) length result }
    ensures limits { runtime.new.limits ≡ runtime.old.limits }
    ensures counted { KeepsCount S.reads S.failures reader.old reader.new result }
    ensures sparing { S.reads reader.new.source.now ≤ S.reads reader.old.source.now + length }
{
    let count = length as usize;
    if count <= SMALL {
        let mut small = [0u8; SMALL];
        return answer_small(alloc, reader, runtime, &mut small[..count]);
    }
    let (client, op) = reader.read_front()?;
    let content = answer_large(alloc, reader, runtime, client, op, count - 3)?;
    Ok(Answered {
        client,
        op,
        content,
    })
}

/// Fills the buffer with a frame's payload, and answers the frame.
fn answer_small<S: Source>(
    alloc: Global,
    reader: &mut Reader<S>,
    runtime: &mut Runtime,
    buffer: &mut [u8],
) -> Result<Answered, StreamFault>
    requires length_ok { IsLength (length buffer.old) }
    requires can_read { CanRead S.reads S.failures reader.old }
    ensures answered { AnswersPayload runtime.old.limits
        (S.left reader.old.source.now) (S.left reader.new.source.now)
        (states_of runtime.old) (states_of runtime.new) (length buffer.new) result }
    ensures limits { runtime.new.limits ≡ runtime.old.limits }
    ensures counted { KeepsCount S.reads S.failures reader.old reader.new result }
    ensures sparing { S.reads reader.new.source.now
        ≤ S.reads reader.old.source.now + length buffer.new }
{
    reader.read_exactly(buffer)?;
    let frame = frame_in(buffer);
    let (client, op) = (frame.client, frame.op);
    let content = answer_frame(alloc, runtime, &frame);
    Ok(Answered {
        client,
        op,
        content,
    })
}

/// The longest body that is read into a fixed buffer.
const SMALL_BODY: usize = SMALL - 3;

/// Reads a body of `count` bytes, and answers its frame, as `serve` does. `client` is the client's
/// number in the runtime.
pub fn answer_body<S: Source>(
    alloc: Global,
    reader: &mut Reader<S>,
    runtime: &mut Runtime,
    client: u16,
    op: u8,
    count: usize,
) -> Result<ReplyContent, StreamFault>
    requires { CanRead S.reads S.failures reader.old }
    ensures answered { AnswersBody runtime.old.limits
        (S.left reader.old.source.now) (S.left reader.new.source.now)
        (states_of runtime.old) (states_of runtime.new) client op count result }
    ensures limits { runtime.new.limits ≡ runtime.old.limits }
    ensures counted { KeepsCount S.reads S.failures reader.old reader.new result }
    ensures sparing { S.reads reader.new.source.now ≤ S.reads reader.old.source.now + count }
{
    if count <= SMALL_BODY {
        let mut small = [0u8; SMALL_BODY];
        return answer_in(alloc, reader, runtime, client, op, &mut small[..count]);
    }
    answer_large(alloc, reader, runtime, client, op, count)
}

/// Reads a body of `count` bytes, and answers its frame. If no memory can be allocated for the
/// body, the body is skipped. The samples of a WriteImage are read straight into the image's new
/// samples.
fn answer_large<S: Source>(
    alloc: Global,
    reader: &mut Reader<S>,
    runtime: &mut Runtime,
    client: u16,
    op: u8,
    count: usize,
) -> Result<ReplyContent, StreamFault>
    requires long { 64 < count }
    requires can_read { CanRead S.reads S.failures reader.old }
    ensures answered { AnswersBody runtime.old.limits
        (S.left reader.old.source.now) (S.left reader.new.source.now)
        (states_of runtime.old) (states_of runtime.new) client op count result }
    ensures limits { runtime.new.limits ≡ runtime.old.limits }
    ensures counted { KeepsCount S.reads S.failures reader.old reader.new result }
    ensures sparing { S.reads reader.new.source.now ≤ S.reads reader.old.source.now + count }
{
    match Op::from_number(op) {
        Some(Op::WriteImage) => answer_write_image(reader, runtime, client, op, count),
        _ => match runtime.ask_again(|| zeros(alloc, count)) {
            Ok(mut body) => answer_in(alloc, reader, runtime, client, op, body.as_mut_slice()),
            Err(NoMemory) => lose_body(reader, client, op, count),
        },
    }
}

/// Returns `count` zero bytes.
fn zeros(alloc: Global, count: usize) -> Result<Vec<u8>, NoMemory>
    ensures len { IfOk result (λ bytes. length bytes.items ≡ count) }
    ensures zeros { IfOk result (λ bytes. bytes.items ≡ replicate count 0) }
{
    Ok(vec![in alloc; 0u8; count]?)
}

/// Fills the buffer with a frame's body, and answers the frame.
fn answer_in<S: Source>(
    alloc: Global,
    reader: &mut Reader<S>,
    runtime: &mut Runtime,
    client: u16,
    op: u8,
    body: &mut [u8],
) -> Result<ReplyContent, StreamFault>
    requires { CanRead S.reads S.failures reader.old }
    ensures answered { AnswersBody runtime.old.limits
        (S.left reader.old.source.now) (S.left reader.new.source.now)
        (states_of runtime.old) (states_of runtime.new) client op (length body.new) result }
    ensures limits { runtime.new.limits ≡ runtime.old.limits }
    ensures counted { KeepsCount S.reads S.failures reader.old reader.new result }
    ensures sparing { S.reads reader.new.source.now
        ≤ S.reads reader.old.source.now + length body.new }
{
    reader.read_exactly(body)?;
    Ok(answer_frame(alloc, runtime, &RequestFrame { client, op, body }))
}

/// Skips a body for which no memory could be allocated, and returns the reply NO_MEMORY. No
/// client's state is read or changed.
fn lose_body<S: Source>(
    reader: &mut Reader<S>,
    client: u16,
    op: u8,
    count: usize,
) -> Result<ReplyContent, StreamFault>
    requires long { 64 < count }
    requires can_read { CanRead S.reads S.failures reader.old }
    ensures answered { (limits : LimitsValue) (states : ℕ → State) → AnswersBody limits
        (S.left reader.old.source.now) (S.left reader.new.source.now)
        states states client op count result }
    ensures counted { KeepsCount S.reads S.failures reader.old reader.new result }
    ensures sparing { S.reads reader.new.source.now ≤ S.reads reader.old.source.now + count }
{
    reader.skip(count)?;
    Ok(ReplyContent::Made(Reply::Refused(Code::NoMemory)))
}

/// Returns the frame that a payload encodes.
fn frame_in(bytes: &[u8]) -> RequestFrame<'_>
    requires { 3 ≤ length bytes.now }
    ensures spelled { bytes.now ≡ payload (frame_of result.client result.op result.body.now) }
    ensures bytes { All (λ b. b < 2 ^ 8) result.body.now }
{
    RequestFrame {
        client: number_of_two(&bytes[..2]),
        op: bytes[2],
        body: &bytes[3..],
    }
}

/// Answers a frame, and returns the content of the reply. If the reply is NO_MEMORY, drops the free
/// blocks.
fn answer_frame(alloc: Global, runtime: &mut Runtime, frame: &RequestFrame) -> ReplyContent
    ensures replies { let f = frame_of frame.now.client frame.now.op frame.now.body.now in
        IsReply runtime.old.limits f (states_of runtime.old) (states_of runtime.new)
        (reply_frame runtime.old.limits (states_of runtime.new)
        (record { client = f.client; op = f.op; content = result })) }
    ensures limits { runtime.new.limits ≡ runtime.old.limits }
{
    let content = content_for(alloc, runtime, frame);
    if let ReplyContent::Made(Reply::Refused(Code::NoMemory)) = content {
        // Parsing may have failed because memory was refused. Dropping the free blocks leaves more
        // memory for a retry by the client.
        runtime.drop_free();
    }
    content
}

/// Answers a frame, and returns the content of the reply. A body that encodes no request is
/// refused. The text of a WriteImagePgm isn't copied.
fn content_for(alloc: Global, runtime: &mut Runtime, frame: &RequestFrame) -> ReplyContent
    ensures replies { let f = frame_of frame.now.client frame.now.op frame.now.body.now in
        IsReply runtime.old.limits f (states_of runtime.old) (states_of runtime.new)
        (reply_frame runtime.old.limits (states_of runtime.new)
        (record { client = f.client; op = f.op; content = result })) }
    ensures limits { runtime.new.limits ≡ runtime.old.limits }
{
    if let Some(Op::WriteImagePgm) = Op::from_number(frame.op) {
        let reply = answer_write_image_pgm(runtime, frame.client, frame.op, frame.body);
        return ReplyContent::Made(reply);
    }
    match parse(alloc, frame.op, frame.body) {
        Ok(request) => answer_request(alloc, runtime, frame.client, &request),
        Err(fault) => ReplyContent::Made(Reply::Refused(fault.code())),
    }
}

/// Answers a request with the runtime's reply, or with NO_MEMORY. For ReadImage and ReadImagePgm,
/// returns the image's reference, so that nothing is copied.
fn answer_request(
    alloc: Global,
    runtime: &mut Runtime,
    client: u16,
    request: &Request,
) -> ReplyContent
    ensures replies { (op : ℕ) (body : List ℕ) → request_of op body ≡ Ok request.now →
        IsReply runtime.old.limits (frame_of client op body)
        (states_of runtime.old) (states_of runtime.new)
        (reply_frame runtime.old.limits (states_of runtime.new)
        (record { client = client; op = op; content = result })) }
    ensures limits { runtime.new.limits ≡ runtime.old.limits }
{
    match request {
        Request::ReadImage(image) => ReplyContent::Samples(*image),
        Request::ReadImagePgm(image) => ReplyContent::Text(*image),
        _ => match runtime.apply(alloc, client, request) {
            Ok(reply) => ReplyContent::Made(reply),
            Err(NoMemory) => ReplyContent::Made(Reply::Refused(Code::NoMemory)),
        },
    }
}
