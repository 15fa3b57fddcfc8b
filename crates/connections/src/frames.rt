//! Answers frames of a connection's clients, each client under its own number of the runtime.
ghost use Rattle.std.specs.Prelude.{◌≡◌, ◌≢◌, ◌+◌, ◌<◌, ◌≤◌, ◌^◌, ℕ};
ghost use Rattle.std.specs.Prelude.{None, Some, Err, IsSome, IfSome};
ghost use Rattle.client_contexts.specs.World.{state_of};
ghost use Rattle.vx_requests.specs.Frame.Reading.{CanRead, KeepsCount};
ghost use Rattle.vx_requests.specs.declared.stream.fault.StreamFault.{StreamFault};
ghost use Rattle.vx_requests.specs.Serving.Turn.{AnswersBody, Turn};
ghost use Rattle.vx_requests.specs.Stream.Transfer.{read_failures, write_failures};
ghost use Rattle.connections.specs.Connections.{states_in, LeavesOthers, is_open};
ghost use Rattle.connections.specs.Numbers.{number_in, number_for, IsNumbering, Releases, Settles};
ghost use Rattle.connections.specs.Numbers.{connections_view};

use crate::numbers::Numbers;
use client_contexts::{NoMemory, Reply, Request, Runtime};
use std::alloc::Global;
use vx_base::Code;
use vx_requests::{
    FRAME_READS, Reader, ReplyContent, Sink, Source, StreamFault, answer_body, write_content,
};

/// Returns a number other than `taken` under which the runtime has no context. Returns `None` if
/// there is none.
pub fn free_number(runtime: &Runtime, taken: u16) -> Option<u16>
    ensures free { IfSome result (λ number. state_of number runtime.now ≡ None) }
    ensures other { IfSome result (λ number. number ≢ taken) }
{
    for step in 0..u16::MAX {
        let number = taken.wrapping_add(step).wrapping_add(1);
        if !runtime.has_context(number) {
            return Some(number);
        }
    }
    None
}

/// Releases the context under a number, if there is one. This takes no memory.
pub fn release(alloc: Global, runtime: &mut Runtime, number: u16)
    ensures { Releases number runtime.old runtime.new }
{
    let _reply = runtime.apply(alloc, number, &Request::ReleaseContext);
}

/// Gives the spare number, under which a context was opened, to a client. If there is no memory or
/// no other spare number, releases the context.
fn take_spare(
    alloc: Global,
    runtime: &mut Runtime,
    numbers: &mut Numbers,
    connection: u32,
    client: u16,
) -> Result<(), NoMemory>
    requires new_client { number_in numbers.old connection client ≡ None }
    requires opened { IsSome (state_of numbers.old.spare runtime.old) }
    ensures { Settles connection client numbers.old.spare numbers.old numbers.new
        runtime.old runtime.new result }
{
    let number = numbers.spare;
    if let Some(next) = free_number(runtime, number) {
        if numbers.add(connection, client, number).is_ok() {
            numbers.spare = next;
            return Ok(());
        }
    }
    release(alloc, runtime, number);
    Err(NoMemory)
}

/// Brings the numbers up to date after a frame of a client was answered under `number`.
fn settle(
    alloc: Global,
    runtime: &mut Runtime,
    numbers: &mut Numbers,
    connection: u32,
    client: u16,
    number: u16,
) -> Result<(), NoMemory>
    requires found { number ≡ number_for numbers.old connection client }
    requires spare { (c k : ℕ) → number_in numbers.old c k ≢ Some numbers.old.spare }
    requires no_context { number ≢ numbers.old.spare →
        state_of numbers.old.spare runtime.old ≡ None }
    ensures { Settles connection client number numbers.old numbers.new
        runtime.old runtime.new result }
{
    if number == numbers.spare {
        if runtime.has_context(number) {
            return take_spare(alloc, runtime, numbers, connection, client);
        }
        return Ok(());
    }
    if runtime.has_context(number) {
        return Ok(());
    }
    numbers.remove(connection, client);
    Ok(())
}

/// Reads a body of `count` bytes, and answers the frame of a connection's client.
pub fn answer_client<S: Source>(
    alloc: Global,
    reader: &mut Reader<S>,
    runtime: &mut Runtime,
    numbers: &mut Numbers,
    connection: u32,
    client: u16,
    op: u8,
    count: usize,
) -> Result<ReplyContent, StreamFault>
    requires can_read { CanRead S.reads S.failures reader.old }
    requires numbered { IsNumbering numbers.old runtime.old }
    ensures numbered { IsNumbering numbers.new runtime.new }
    ensures answered { AnswersBody runtime.old.limits
        (S.left reader.old.source.now) (S.left reader.new.source.now)
        (states_in (connections_view runtime.old numbers.old) connection)
        (states_in (connections_view runtime.new numbers.new) connection) client op count result }
    ensures others { LeavesOthers connection
        (connections_view runtime.old numbers.old) (connections_view runtime.new numbers.new) }
    ensures still_open { is_open (connections_view runtime.new numbers.new) connection
        ≡ is_open (connections_view runtime.old numbers.old) connection }
    ensures counted { KeepsCount S.reads S.failures reader.old reader.new result }
    ensures sparing { S.reads reader.new.source.now ≤ S.reads reader.old.source.now + count }
{
    let number = numbers.find(connection, client);
    let content = answer_body(alloc, reader, runtime, number, op, count)?;
    match settle(alloc, runtime, numbers, connection, client, number) {
        Ok(()) => Ok(content),
        Err(NoMemory) => Ok(ReplyContent::Made(Reply::Refused(Code::NoMemory))),
    }
}

/// Serves one frame of a connection, within the reader's budget.
fn answer_one<S: Source, K: Sink>(
    alloc: Global,
    reader: &mut Reader<S>,
    sink: &mut K,
    runtime: &mut Runtime,
    numbers: &mut Numbers,
    connection: u32,
) -> Result<Option<u8>, StreamFault>
    requires can_read { CanRead S.reads S.failures reader.old }
    requires write_failures_fit { K.failures sink.old < 2 ^ 62 }
    requires numbered { IsNumbering numbers.old runtime.old }
    ensures numbered { IsNumbering numbers.new runtime.new }
    ensures turn { Turn runtime.old.limits
        (S.left reader.old.source.now) (S.left reader.new.source.now)
        (K.taken sink.old) (K.taken sink.new)
        (states_in (connections_view runtime.old numbers.old) connection)
        (states_in (connections_view runtime.new numbers.new) connection) result }
    ensures others { LeavesOthers connection
        (connections_view runtime.old numbers.old) (connections_view runtime.new numbers.new) }
    ensures still_open { is_open (connections_view runtime.new numbers.new) connection
        ≡ is_open (connections_view runtime.old numbers.old) connection }
    ensures counted { KeepsCount S.reads S.failures reader.old reader.new result }
    ensures sparing { S.reads reader.new.source.now
        ≤ S.reads reader.old.source.now + (2 ^ 29 + 4) }
    ensures write_failed { K.failures sink.new ≡ K.failures sink.old + write_failures result }
{
    let Some(length) = reader.read_length()? else {
        return Ok(None);
    };
    let (client, op) = reader.read_front()?;
    let count = length as usize - 3;
    let content = answer_client(
        alloc, reader, runtime, numbers, connection, client, op, count,
    )?;
    let number = numbers.find(connection, client);
    Ok(Some(write_content(sink, runtime, number, client, op, &content)?))
}

/// Serves one frame of a connection, as `serve_frame` of `vx_requests` does for a server of its
/// own.
pub fn answer_frame<S: Source, K: Sink>(
    alloc: Global,
    source: &mut S,
    sink: &mut K,
    runtime: &mut Runtime,
    numbers: &mut Numbers,
    connection: u32,
) -> Result<Option<u8>, StreamFault>
    requires numbered { IsNumbering numbers.old runtime.old }
    requires reads_fit { S.reads source.old < 2 ^ 62 }
    requires read_failures_fit { S.failures source.old < 2 ^ 62 }
    requires write_failures_fit { K.failures sink.old < 2 ^ 62 }
    ensures numbered { IsNumbering numbers.new runtime.new }
    ensures turn { Turn runtime.old.limits (S.left source.old) (S.left source.new)
        (K.taken sink.old) (K.taken sink.new)
        (states_in (connections_view runtime.old numbers.old) connection)
        (states_in (connections_view runtime.new numbers.new) connection) result }
    ensures others { LeavesOthers connection
        (connections_view runtime.old numbers.old) (connections_view runtime.new numbers.new) }
    ensures still_open { is_open (connections_view runtime.new numbers.new) connection
        ≡ is_open (connections_view runtime.old numbers.old) connection }
    ensures read_failed { S.failures source.new ≡ S.failures source.old + read_failures result }
    ensures write_failed { K.failures sink.new ≡ K.failures sink.old + write_failures result }
    ensures sparing { S.reads source.new ≤ S.reads source.old + (2 ^ 29 + 4) }
    ensures ends { result ≢ Err StreamFault.ReaderWouldNotEnd }
{
    let mut reader = Reader {
        source,
        budget: FRAME_READS,
    };
    answer_one(alloc, &mut reader, sink, runtime, numbers, connection)
}
