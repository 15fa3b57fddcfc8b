//! Answers a frame of the caller's bytes, into the caller's buffers.
ghost use Rattle.std.specs.Prelude.{◌≡◌, ◌+◌, ◌≤◌, ◌++◌, true, false, List, ℕ, length, take};
ghost use Rattle.vx_requests.specs.Frame.Frames.{said_length};
ghost use Rattle.vx_requests.specs.Serving.OneFrame.{ServesOneFrame};
ghost use Rattle.connections.specs.Connections.{StaysOpen, is_open, states_in};
ghost use Rattle.vx_embed.specs.Serves.{Answers, AnswersOpen, IsOneFrame};

use crate::slices::{ReplyBuffer, Slices, byte_at};
use crate::status::Status;
use connections::Connections;
use std::alloc::Global;
use vx_requests::is_one_frame;

/// The least number of bytes of the two reply buffers together. Every reply fits, except those of
/// ReadImage, ReadImagePgm and ReadDistribution, which change no state.
const LEAST_BUFFER: usize = 28;

/// Answers a frame, as `feqyldan_serve` does. Returns the status, and the length of the reply or of
/// the buffers that it needs.
pub fn answer(
    alloc: Global,
    server: &mut Connections,
    connection: u32,
    front: &[u8],
    back: &[u8],
    reply: &mut [u8],
    rest: &mut [u8],
) -> (Status, usize)
    ensures { AnswersOpen connection server.old server.new front.now back.now
        (reply.new ++ rest.new) result.1 result.0 }
{
    if !server.is_open(connection) {
        return (Status::NotConnected, 0);
    }
    answer_open(alloc, server, connection, front, back, reply, rest)
}

/// Answers a frame of an open connection, as `answer` does.
///
/// A reply that doesn't fit is discarded after the frame was answered. No state has then changed,
/// since the reply has at least 28 bytes.
fn answer_open(
    alloc: Global,
    server: &mut Connections,
    connection: u32,
    front: &[u8],
    back: &[u8],
    reply: &mut [u8],
    rest: &mut [u8],
) -> (Status, usize)
    requires { is_open server.old connection ≡ true }
    ensures { Answers connection server.old server.new front.now back.now
        (reply.new ++ rest.new) result.1 result.0 }
{
    if !is_one_frame(front, back) {
        return (Status::NotAFrame, 0);
    }
    if reply.len() + rest.len() < LEAST_BUFFER {
        return (Status::TooShort, LEAST_BUFFER);
    }
    let mut sink = ReplyBuffer {
        bytes: reply,
        rest,
        count: 0,
        failures: 0,
    };
    if serve_into(alloc, server, connection, front, back, &mut sink) {
        return (Status::Ok, sink.count);
    }
    (Status::TooShort, length_said(reply, rest) as usize + 4)
}

/// Returns the length that the first four bytes of a frame encode. The frame is in two slices, one
/// after the other.
fn length_said(front: &[u8], back: &[u8]) -> u32
    requires { 4 ≤ length front.now + length back.now }
    ensures { result ≡ said_length (front.now ++ back.now) }
{
    let first = byte_at(front, back, 0);
    let second = byte_at(front, back, 1);
    let third = byte_at(front, back, 2);
    let fourth = byte_at(front, back, 3);
    u32::from_be_bytes([first, second, third, fourth])
}

/// Answers a frame, and writes the reply to empty buffers. Returns false if the reply was cut short
/// because the buffers were full.
fn serve_into(
    alloc: Global,
    server: &mut Connections,
    connection: u32,
    front: &[u8],
    back: &[u8],
    sink: &mut ReplyBuffer,
) -> bool
    requires is_open { is_open server.old connection ≡ true }
    requires frame { IsOneFrame (front.now ++ back.now) }
    requires empty { (sink.old.count ≡ 0) × (sink.old.failures ≡ 0) }
    ensures whole { result ≡ true →
        ServesOneFrame server.old.limits (front.now ++ back.now)
        (take sink.new.count (sink.new.bytes.now ++ sink.new.rest.now))
        (states_in server.old connection) (states_in server.new connection) }
    ensures cut { result ≡ false → (missing : List ℕ) ×
        ServesOneFrame server.old.limits (front.now ++ back.now)
        ((sink.new.bytes.now ++ sink.new.rest.now) ++ missing)
        (states_in server.old connection) (states_in server.new connection) }
    ensures stays_open { StaysOpen connection server.old server.new }
    ensures same_references { (sink.new.bytes.ghost_name ≡ sink.old.bytes.ghost_name)
        × (sink.new.rest.ghost_name ≡ sink.old.rest.ghost_name) }
{
    let mut source = Slices {
        front,
        back,
        reads: 0,
    };
    server.answer(alloc, connection, &mut source, sink).is_ok()
}
