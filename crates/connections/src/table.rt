//! The open connections over one runtime.

ghost use Rattle.std.specs.Prelude.{◌≡◌, ◌≢◌, ◌+◌, ◌<◌, ◌≤◌, ◌^◌, ℕ, [], true, false, length};
ghost use Rattle.std.specs.Prelude.{None, Err, IfSome, IfOk, OnErr};
ghost use Rattle.vx_requests.specs.declared.stream.fault.StreamFault.{StreamFault};
ghost use Rattle.vx_requests.specs.Serving.Turn.{Turn};
ghost use Rattle.vx_requests.specs.Stream.Transfer.{read_failures, write_failures};
ghost use Rattle.connections.specs.Connections.{is_open, clients_of, states_in, LeavesOthers};
ghost use Rattle.connections.specs.Connections.{Connects, Closes, StaysOpen};

use crate::frames::{answer_frame, release};
use crate::numbers::Numbers;
use client_contexts::{Limits, NoMemory, Runtime};
use std::alloc::Global;
use std::collections::BTreeMap;
use std::marker::Model;
use vx_requests::{Sink, Source, StreamFault};

/// Several connections over one runtime. Each has clients of its own, which no other connection can
/// see or change.
///
/// At most 65,535 contexts can be open. If all are, OpenContext is answered NO_MEMORY.
#[derive(Drop)]
pub struct Connections {
    alloc: Global,
    runtime: Runtime,
    numbers: Numbers,
    /// The number of the newest connection.
    newest: u32,
}

impl Model for Connections {
    ghost use Rattle.connections.specs.Connections.{ConnectionsValue};
    ghost use Rattle.connections.specs.Numbers.{IsNumbering, connections_view};

    ghost Value = { ConnectionsValue };

    ghost view = { λ c. connections_view c.runtime c.numbers };

    ghost invariant = { λ c. IsNumbering c.numbers c.runtime };
}

impl Connections {
    /// Returns a value without connections. Allocates nothing; contexts and connections are
    /// allocated with `alloc`.
    pub fn new(alloc: Global, limits: Limits) -> Connections
        ensures { result ≡ record { limits = limits; connections = [] } }
    {
        Connections {
            alloc,
            runtime: Runtime::new(alloc, limits),
            numbers: Numbers {
                connections: BTreeMap::new(alloc),
                spare: 0,
            },
            newest: 0,
        }
    }

    /// Returns whether a connection with this number is open.
    pub fn is_open(&self, connection: u32) -> bool
        ensures { result ≡ is_open self.now connection }
    {
        self.numbers.has(connection)
    }

    /// Opens a connection, and returns its number, which no open connection has. Numbers are given
    /// in turn, so the number of a closed connection isn't given to another one soon.
    pub fn connect(&mut self) -> Result<u32, NoMemory>
        ensures opened { IfOk result (λ connection. Connects connection self.old self.new) }
        ensures err { OnErr result (self.new ≡ self.old) }
    {
        let Some(connection) = self.free_connection() else {
            return Err(NoMemory);
        };
        self.numbers.open(self.alloc, connection)?;
        self.newest = connection;
        Ok(connection)
    }

    /// Returns a number that no open connection has, or `None` if there is none.
    fn free_connection(&self) -> Option<u32>
        ensures { IfSome result (λ connection. is_open self.now connection ≡ false) }
    {
        for step in 0..u32::MAX {
            let connection = self.newest.wrapping_add(step).wrapping_add(1);
            if !self.is_open(connection) {
                return Some(connection);
            }
        }
        None
    }

    /// Closes a connection: releases its contexts, so that the blocks of its images go back to the
    /// pool. This takes no memory.
    pub fn disconnect(&mut self, connection: u32)
        ensures { Closes connection self.old self.new }
    {
        while self.release_one(connection) {}
        self.numbers.close(connection);
    }

    /// Releases the context of one client of a connection. Returns whether there was one.
    fn release_one(&mut self, connection: u32) -> bool
        ensures others { LeavesOthers connection self.old self.new }
        ensures fewer { result ≡ true → length (clients_of self.new connection)
            < length (clients_of self.old connection) }
        ensures none { result ≡ false → (client : ℕ) →
            states_in self.new connection client ≡ None }
    {
        match self.numbers.pop(connection) {
            Some((_client, number)) => {
                release(self.alloc, &mut self.runtime, number);
                true
            }
            None => false,
        }
    }

    /// Serves one frame of an open connection, as `serve_frame` does for a server of its own.
    pub fn answer<S: Source, K: Sink>(
        &mut self,
        alloc: Global,
        connection: u32,
        source: &mut S,
        sink: &mut K,
    ) -> Result<Option<u8>, StreamFault>
        requires is_open { is_open self.old connection ≡ true }
        requires reads_fit { S.reads source.old < 2 ^ 62 }
        requires read_failures_fit { S.failures source.old < 2 ^ 62 }
        requires write_failures_fit { K.failures sink.old < 2 ^ 62 }
        ensures turn { Turn self.old.limits (S.left source.old) (S.left source.new)
            (K.taken sink.old) (K.taken sink.new)
            (states_in self.old connection) (states_in self.new connection) result }
        ensures stays_open { StaysOpen connection self.old self.new }
        ensures read_failed { S.failures source.new ≡ S.failures source.old + read_failures result }
        ensures write_failed { K.failures sink.new ≡ K.failures sink.old + write_failures result }
        ensures sparing { S.reads source.new ≤ S.reads source.old + (2 ^ 29 + 4) }
        ensures ends { result ≢ Err StreamFault.ReaderWouldNotEnd }
    {
        let (runtime, numbers) = (&mut self.runtime, &mut self.numbers);
        answer_frame(alloc, source, sink, runtime, numbers, connection)
    }
}
