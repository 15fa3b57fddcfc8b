//! The numbers by which the runtime knows the clients of the connections.
ghost use Rattle.std.specs.Prelude.{◌≡◌, ◌≢◌, ◌<◌, ℕ, true, false, None, Some, length};
ghost use Rattle.std.specs.Prelude.{IfSome, IfNone, OnOk, OnErr};
ghost use Rattle.connections.specs.declared.numbers.Numbers.{Numbers};
ghost use Rattle.connections.specs.Numbers.{numbers_of, number_in, number_for, Assigns};
ghost use Rattle.connections.specs.Numbers.{HasSameConnections, SetsOpen, has_connection};

use client_contexts::NoMemory;
use std::alloc::Global;
use std::collections::BTreeMap;

/// The open connections, each with the numbers of its clients that have a context. `spare` is the
/// number of no client.
#[derive(Drop)]
pub struct Numbers {
    pub connections: BTreeMap<u32, BTreeMap<u16, u16>>,
    pub spare: u16,
}

impl Numbers {
    /// Returns whether a connection is open.
    pub fn has(&self, connection: u32) -> bool
        ensures { result ≡ has_connection self.now connection }
    {
        self.connections.contains_key(&connection)
    }

    /// Opens a connection that isn't open. No client of it has a number.
    pub fn open(&mut self, alloc: Global, connection: u32) -> Result<(), NoMemory>
        requires { has_connection self.old connection ≡ false }
        ensures ok { OnOk result (SetsOpen connection true self.old self.new) }
        ensures err { OnErr result (self.new.connections.entries ≡ self.old.connections.entries) }
        ensures spare { self.new.spare ≡ self.old.spare }
    {
        self.connections.insert(connection, BTreeMap::new(alloc))?;
        Ok(())
    }

    /// Closes a connection, if it is open.
    pub fn close(&mut self, connection: u32)
        requires { (client : ℕ) → number_in self.old connection client ≡ None }
        ensures { SetsOpen connection false self.old self.new }
    {
        self.connections.remove(&connection);
    }

    /// Returns the number of a connection's client, or the spare number if it has none.
    pub fn find(&self, connection: u32, client: u16) -> u16
        ensures { result ≡ number_for self.now connection client }
    {
        match self.connections.get(&connection) {
            Some(clients) => match clients.get(&client) {
                Some(number) => *number,
                None => self.spare,
            },
            None => self.spare,
        }
    }

    /// Gives a client of an open connection a number.
    pub fn add(&mut self, connection: u32, client: u16, number: u16) -> Result<(), NoMemory>
        ensures ok { OnOk result (Assigns connection client (Some number) self.old self.new) }
        ensures err { OnErr result (Assigns connection client
            (number_in self.old connection client) self.old self.new) }
        ensures spare { self.new.spare ≡ self.old.spare }
    {
        let Some(clients) = self.connections.get_mut(&connection) else {
            return Err(NoMemory);
        };
        clients.insert(client, number)?;
        Ok(())
    }

    /// Takes the number of a client away.
    pub fn remove(&mut self, connection: u32, client: u16)
        ensures removed { Assigns connection client None self.old self.new }
        ensures spare { self.new.spare ≡ self.old.spare }
    {
        if let Some(clients) = self.connections.get_mut(&connection) {
            clients.remove(&client);
        }
    }

    /// Takes the number of one client of a connection away, and returns the client and its number.
    /// Returns `None` if no client of the connection has a number.
    pub fn pop(&mut self, connection: u32) -> Option<(u16, u16)>
        ensures popped { IfSome result (λ e. (number_in self.old connection e.0 ≡ Some e.1)
            × Assigns connection e.0 None self.old self.new) }
        ensures fewer { IfSome result (λ e. length (numbers_of self.new connection)
            < length (numbers_of self.old connection)) }
        ensures none { IfNone result ((client : ℕ) → number_in self.old connection client ≡ None) }
        ensures same { IfNone result ((c k : ℕ) → number_in self.new c k ≡ number_in self.old c k) }
        ensures connections { HasSameConnections self.old self.new }
        ensures spare { self.new.spare ≡ self.old.spare }
    {
        self.connections.get_mut(&connection)?.pop_first()
    }
}
