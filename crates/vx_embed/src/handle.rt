//! Handles, which hold a server behind a pointer.
ghost use Rattle.std.specs.Prelude.{◌≡◌, true, false};
ghost use Rattle.connections.specs.Connections.{ConnectionsValue};
ghost use Rattle.connections.specs.contracts.table.Connections.{the_row};

use connections::Connections;
use loose::Loose;
use std::alloc::Global;
use std::marker::Model;
use std::{mem, ptr};

/// A server or none, in the caller's memory. A handle isn't `Drop`, so no function can lose the
/// server that it holds.
#[repr(C)]
pub struct Handle {
    at: *mut u8,
    held: bool,
    ghost world: { ConnectionsValue } by { the_row.coded },
}

impl Model for Handle {
    ghost use Rattle.vx_embed.specs.Ownership.{handle_owns};

    ghost also_owns = { λ h. handle_owns h.held h.at h.world };
}

impl Handle {
    /// Takes the server of a handle that holds one.
    pub fn take(&mut self, alloc: Global) -> Box<Connections>
        requires { self.old.held ≡ true }
        ensures held { self.new.held ≡ false }
        ensures world { result.value ≡ self.old.world }
    {
        mem::replace(self, Handle::closed()).into_box(alloc)
    }

    /// Puts a server into a handle that holds none.
    pub fn put(&mut self, server: Box<Connections>)
        requires { self.old.held ≡ false }
        ensures held { self.new.held ≡ true }
        ensures world { self.new.world ≡ server.value }
    {
        mem::replace(self, Handle::holding(server)).end();
    }

    /// Returns a handle without a server.
    fn closed() -> Handle
        ensures { result.held ≡ false }
    {
        Handle {
            at: ptr::null_mut(),
            held: false,
        }
    }

    /// Returns a handle that holds a server.
    fn holding(server: Box<Connections>) -> Handle
        ensures held { result.held ≡ true }
        ensures world { result.world ≡ server.value }
    {
        Handle::from_loose(Loose::of(server))
    }

    fn from_loose(loose: Loose<Connections, Global>) -> Handle
        ensures { (result.held ≡ true) × (result.world ≡ loose.value) }
    {
        let Loose { at, alloc: _ } = loose;
        Handle {
            at: at as *mut u8,
            held: true,
        }
    }

    /// Returns whether the handle holds a server.
    pub fn is_held(&mut self) -> bool
        ensures { (result ≡ self.old.held) × (self.new ≡ self.old) }
    {
        self.held
    }

    /// Returns the server of a handle that holds one.
    fn into_box(self, alloc: Global) -> Box<Connections>
        requires { self.held ≡ true }
        ensures { result.value ≡ self.world }
    {
        self.into_loose(alloc).into_box()
    }

    fn into_loose(self, alloc: Global) -> Loose<Connections, Global>
        requires { self.held ≡ true }
        ensures { result.value ≡ self.world }
    {
        let Handle { at, held: _ } = self;
        Loose {
            at: at as *mut Connections,
            alloc,
        }
    }

    /// Ends a handle that holds no server.
    fn end(self)
        requires { self.held ≡ false }
    {
        let Handle { at: _, held: _ } = self;
    }
}
