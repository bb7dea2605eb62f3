//! What the log tells of logins: who is logged in at a connection, and how that ends. How a login was answered the
//! lobby itself says.

use crate::gate::Gate;
use command_grammar::Command;
use line_words::NameBuf;
use lobby_lock::Held;
use lobby_machine::LoginAnswer;
use server_log::{Cause, Denial, Happening, ShortText};

/// So many denials of a client are told, and those behind them are counted: a client that logs in again and again does
/// not fill the log.
const DENIALS_TOLD: u64 = 3;

/// What of a line operators may be told.
#[derive(Drop)]
pub(crate) enum Asked {
    /// A login under this name.
    Login { name: ShortText },
    /// To log out, while it hears.
    Exit,
    /// Anything else.
    Other,
}

impl Asked {
    /// What a client asks by this command, before it is said.
    pub(crate) fn of(held: &Held, client: u64, command: &Command) -> Asked {
        match command {
            Command::Login { user_name, .. } => Asked::Login {
                name: ShortText::of(user_name.as_slice()),
            },
            Command::Exit if held.hears(client) => Asked::Exit,
            _ => Asked::Other,
        }
    }
}

/// Why a login was denied. None where it was not.
fn denial_of(answer: LoginAnswer) -> Option<Denial> {
    match answer {
        LoginAnswer::LetIn => None,
        LoginAnswer::Invalid => Some(Denial::Invalid),
        LoginAnswer::InUse => Some(Denial::InUse),
        LoginAnswer::Again => Some(Denial::Again),
    }
}

/// What is remembered of a client.
#[derive(Drop)]
pub(crate) struct Visit {
    // where it connected from
    ip: [u8; 4],
    // who logged in
    user: Option<NameBuf>,
    // how many of its logins were denied
    denials: u64,
    has_exited: bool,
    is_finished: bool,
}

impl Visit {
    /// Nobody is logged in, and it is not known from where the client connected.
    pub(crate) fn new() -> Visit {
        Visit {
            ip: [0; 4],
            user: None,
            denials: 0,
            has_exited: false,
            is_finished: false,
        }
    }

    /// The client connected from this address.
    pub(crate) fn came_from(&mut self, ip: [u8; 4]) {
        self.ip = ip;
    }

    /// The client's line was said, and so it was answered if it was a login. Operators are told of that.
    pub(crate) fn note<G: Gate>(
        &mut self,
        client: u64,
        gate: &G,
        asked: Asked,
        login: Option<LoginAnswer>,
    ) {
        match asked {
            Asked::Login { name } => {
                if let Some(answer) = login {
                    self.note_login(client, gate, name, answer);
                }
            }
            Asked::Exit => self.has_exited = true,
            Asked::Other => {}
        }
    }

    /// A login under this name was answered so.
    fn note_login<G: Gate>(&mut self, client: u64, gate: &G, name: ShortText, answer: LoginAnswer) {
        let ip = self.ip;
        let Some(reason) = denial_of(answer) else {
            self.user = NameBuf::of(name.as_slice());
            gate.tell(Happening::Login { client, name, ip });
            return;
        };
        self.denials = self.denials.saturating_add(1);
        if self.denials <= DENIALS_TOLD {
            gate.tell(Happening::Denied {
                client,
                name,
                reason,
                ip,
            });
        }
    }

    /// How many denials were not told, of a client that has gone. None where each was.
    pub(crate) fn denied_more(&self, client: u64) -> Option<Happening> {
        if self.denials <= DENIALS_TOLD {
            return None;
        }
        Some(Happening::DeniedMore {
            client,
            count: self.denials - DENIALS_TOLD,
            ip: self.ip,
        })
    }

    /// The lobby said that nothing will ever come of the client.
    pub(crate) fn finish(&mut self) {
        self.is_finished = true;
    }

    /// Why the client is shut, if it gave a cause: it said EXIT, it was cut, a line over the limit is next, or its link
    /// has failed.
    pub(crate) fn cause(&self, is_spoilt: bool, has_failed: bool) -> Option<Cause> {
        if self.has_exited {
            Some(Cause::Exit)
        } else if self.is_finished {
            Some(Cause::TooSlow)
        } else if is_spoilt {
            Some(Cause::LineTooLong)
        } else if has_failed {
            Some(Cause::Fault)
        } else {
            None
        }
    }

    /// The log out of the user, if there is one, by the shut of its client.
    pub(crate) fn logout(&self, client: u64, cause: Cause) -> Option<Happening> {
        let user = self.user.as_ref()?;
        let name = ShortText::of(user.as_slice());
        Some(Happening::Logout {
            client,
            name,
            cause,
        })
    }
}
