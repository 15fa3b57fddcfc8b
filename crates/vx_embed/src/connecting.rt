//! Opens and closes connections, with the results that a caller gets.
ghost use Rattle.vx_embed.specs.ConnectionCalls.{ConnectResult, DisconnectResult};

use crate::status::Status;
use connections::Connections;

/// Opens a connection. Returns the status, and the number of the connection. The number is 0 if
/// none was opened.
pub fn connect(server: &mut Connections) -> (Status, u32)
    ensures { ConnectResult result.1 server.old server.new result.0 }
{
    match server.connect() {
        Ok(connection) => (Status::Ok, connection),
        Err(_) => (Status::NoMemory, 0),
    }
}

/// Closes a connection, if it is open.
pub fn disconnect(server: &mut Connections, connection: u32) -> Status
    ensures { DisconnectResult connection server.old server.new result }
{
    if !server.is_open(connection) {
        return Status::NotConnected;
    }
    server.disconnect(connection);
    Status::Ok
}
