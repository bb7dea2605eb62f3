//! The connection of a client.

ghost use Rattle.std.specs.Prelude.{◌≡◌, true};

use crate::wire_link::WireLink;
use lobby_holds::{Conn, Got, Link, Sent};
use mio::event::Event;

/// A client and its link.
#[derive(Drop)]
pub struct Connection {
    /// The client, with the bytes that are under way.
    pub conn: Conn,
    /// The link over its socket.
    pub link: WireLink,
    /// Whether its client was sent all that waited for it: once its worker ends, it is then shut.
    pub is_told: bool,
    // a poll told that the other side ended
    is_ending: bool,
    // the other side ended or the link failed, and memory was refused since
    is_over: bool,
}

impl Connection {
    /// A connection that had no turn yet.
    pub(crate) fn new(conn: Conn, link: WireLink) -> Connection {
        Connection {
            conn,
            link,
            is_told: false,
            is_ending: false,
            is_over: false,
        }
    }

    /// Notes what a poll told of its link.
    pub(crate) fn note(&mut self, event: &Event) {
        self.is_ending |= event.is_read_closed() || event.is_write_closed();
        self.link.note(event);
    }

    /// Whether its next turn likely costs much, whatever its client asks: a poll told that the other side ended, so
    /// that the client is shut, or its link took no more at the last write, so that much waits to be sent.
    pub(crate) fn is_dear(&self) -> bool {
        self.is_ending || self.link.last_sent() == Some(Sent::Later)
    }

    /// Whether its client is only to be shut, and no more to be served: the other side ended or the link failed, and
    /// memory was refused since.
    pub fn is_over(&self) -> bool
        ensures { result ≡ self.now.is_over }
    {
        self.is_over
    }

    /// Memory was refused in its turn. Whether the other side has ended or the link has failed: then it is over from
    /// now on.
    pub fn refuse(&mut self) -> bool
        ensures over { result ≡ self.new.is_over }
        ensures stays { self.old.is_over ≡ true → self.new.is_over ≡ true }
        ensures conn { self.new.conn ≡ self.old.conn }
        ensures link { self.new.link ≡ self.old.link }
    {
        self.is_over |= self.is_ending || has_failed(&self.link);
        self.is_over
    }
}

/// Whether a link failed at its last read or its last write.
fn has_failed(link: &WireLink) -> bool {
    link.last_got() == Some(Got::Fault) || link.last_sent() == Some(Sent::Fault)
}
