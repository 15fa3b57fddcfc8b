//! The server as a static library, in the process of a C program.
//!
//! - `feqyldan_open` makes a server, which a `Handle` in the caller's memory then holds.
//! - `feqyldan_connect` opens a connection to the server. Each connection has clients of its own.
//! - `feqyldan_serve` answers one request frame of a connection, from the caller's bytes into the
//!   caller's buffers.
//! - `feqyldan_disconnect` closes a connection, and frees what its clients made.
//! - `feqyldan_close` frees the server.
//!
//! The header is clients/c/include/feqyldan/core.h. It also has what a caller owes, such as one
//! call at a time for a handle. No proof covers this.
#![tactic(auto)]

mod answering;
mod connecting;
mod handle;
mod slices;
mod status;

ghost use Rattle.std.specs.Prelude.{◌≡◌, ◌++◌, true, false, [], take, Some, Ok};
ghost use Rattle.vx_requests.specs.declared.serving.summary.Summary.{Summary};
ghost use Rattle.vx_requests.specs.Serving.Session.{Session};
ghost use Rattle.connections.specs.Connections.{states_in};
ghost use Rattle.vx_embed.specs.declared.status.Status.{Status};
ghost use Rattle.vx_embed.specs.Status.{status_number};
ghost use Rattle.vx_embed.specs.Opens.{Opens};
ghost use Rattle.vx_embed.specs.ConnectionCalls.{OpensConnection, ClosesConnection};
ghost use Rattle.vx_embed.specs.Serves.{Serves};

use client_model::Limits;
use connections::Connections;
pub use handle::Handle;
use status::Status;
use std::alloc::Global;

/// Makes a server with these limits, without connections. The handle then holds the server.
///
/// - `Ok`: the server was made
/// - `AlreadyOpen`: the handle holds a server
/// - `BadLimits`: a limit isn't 1 to 2^40 bytes
/// - `NoMemory`: an allocation failed
///
/// The handle changes only at `Ok`.
#[unsafe(no_mangle)]
pub extern "C" fn feqyldan_open(alloc: Global, quota: u64, work: u64, handle: &mut Handle) -> u32
    ensures { (status : Status) × (result ≡ status_number status)
        × Opens quota work handle.old handle.new status }
{
    open(alloc, quota, work, handle).number()
}

fn open(alloc: Global, quota: u64, work: u64, handle: &mut Handle) -> Status
    ensures { Opens quota work handle.old handle.new result }
{
    if handle.is_held() {
        return Status::AlreadyOpen;
    }
    let Some(limits) = Limits::new(quota, work) else {
        return Status::BadLimits;
    };
    match Box::new(alloc, Connections::new(alloc, limits)) {
        Ok(server) => {
            handle.put(server);
            Status::Ok
        }
        Err(_) => Status::NoMemory,
    }
}

/// Opens a connection, which has no contexts. Its number is one that no open connection has.
///
/// - `Ok`: `*connection` is the number of the connection
/// - `NotOpen`: the handle holds no server
/// - `NoMemory`: an allocation failed
///
/// Only at `Ok` have the connections changed, and `*connection` is 0 unless it is `Ok`. The states
/// of the other connections' clients never change.
#[unsafe(no_mangle)]
pub extern "C" fn feqyldan_connect(alloc: Global, handle: &mut Handle, connection: &mut u32) -> u32
    ensures { (status : Status) × (result ≡ status_number status)
        × OpensConnection connection.new handle.old handle.new status }
{
    let (status, number) = connect(alloc, handle);
    *connection = number;
    status.number()
}

fn connect(alloc: Global, handle: &mut Handle) -> (Status, u32)
    ensures { OpensConnection result.1 handle.old handle.new result.0 }
{
    if !handle.is_held() {
        return (Status::NotOpen, 0);
    }
    let mut server = handle.take(alloc);
    let connected = connecting::connect(&mut server);
    handle.put(server);
    connected
}

/// Answers one request frame of a connection. The frame is `front` and then `back`. Writes the
/// reply frame to `reply`, and what doesn't fit there to the front of `rest`.
///
/// - `Ok`: `*length` is the length of the reply
/// - `TooShort`: `reply` and `rest` are too short. `*length` is the length that they have to have
///   at least, together. Less than 28 bytes are always too short
/// - `NotAFrame`: the bytes aren't exactly one frame, or `front` has less than four bytes
/// - `NotOpen`: the handle holds no server
/// - `NotConnected`: the connection isn't open
///
/// Only at `Ok` may the states of the connection's clients have changed. The states of the other
/// connections' clients never change. `*length` is 0 at `NotAFrame`, `NotOpen` and `NotConnected`.
#[unsafe(no_mangle)]
pub extern "C" fn feqyldan_serve(
    alloc: Global,
    handle: &mut Handle,
    connection: u32,
    front: &[u8],
    back: &[u8],
    reply: &mut [u8],
    rest: &mut [u8],
    length: &mut usize,
) -> u32
    ensures serves { (status : Status) × (result ≡ status_number status)
        × Serves connection handle.old handle.new front.now back.now (reply.new ++ rest.new)
        length.new status }
    ensures one_session { result ≡ 0 → (summary : Summary) × Session handle.old.world.limits
        (Some (front.now ++ back.now)) (Some []) (Some [])
        (Some (take length.new (reply.new ++ rest.new)))
        (states_in handle.old.world connection) (states_in handle.new.world connection)
        (Ok summary) }
{
    let (status, count) = serve(alloc, handle, connection, front, back, reply, rest);
    *length = count;
    status.number()
}

fn serve(
    alloc: Global,
    handle: &mut Handle,
    connection: u32,
    front: &[u8],
    back: &[u8],
    reply: &mut [u8],
    rest: &mut [u8],
) -> (Status, usize)
    ensures { Serves connection handle.old handle.new front.now back.now (reply.new ++ rest.new)
        result.1 result.0 }
{
    if !handle.is_held() {
        return (Status::NotOpen, 0);
    }
    let mut server = handle.take(alloc);
    let answered = answering::answer(alloc, &mut server, connection, front, back, reply, rest);
    handle.put(server);
    answered
}

/// Closes a connection: releases its contexts, and frees what they hold. This needs no memory.
///
/// - `Ok`: the connection was closed. Its number may be given to a new connection
/// - `NotOpen`: the handle holds no server
/// - `NotConnected`: the connection isn't open. Nothing has changed
///
/// The states of the other connections' clients never change.
#[unsafe(no_mangle)]
pub extern "C" fn feqyldan_disconnect(alloc: Global, handle: &mut Handle, connection: u32) -> u32
    ensures { (status : Status) × (result ≡ status_number status)
        × ClosesConnection connection handle.old handle.new status }
{
    disconnect(alloc, handle, connection).number()
}

fn disconnect(alloc: Global, handle: &mut Handle, connection: u32) -> Status
    ensures { ClosesConnection connection handle.old handle.new result }
{
    if !handle.is_held() {
        return Status::NotOpen;
    }
    let mut server = handle.take(alloc);
    let status = connecting::disconnect(&mut server, connection);
    handle.put(server);
    status
}

/// Frees the server with all of its connections. Does nothing if the handle holds no server.
#[unsafe(no_mangle)]
pub extern "C" fn feqyldan_close(alloc: Global, handle: &mut Handle)
    ensures { handle.new.held ≡ false }
{
    if handle.is_held() {
        let _server = handle.take(alloc);
    }
}
