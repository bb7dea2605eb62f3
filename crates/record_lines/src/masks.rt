//! What of a request is not written as it is.

ghost use Rattle.std.specs.Prelude.{◌≡◌, IfOk, OnErr, IsTrue, None, is_some};
ghost use Rattle.std.specs.Option.{unwrap_or};
ghost use Rattle.command_grammar.specs.declared.command.Command.TheVariants as command;
ghost use Rattle.record_lines.specs.Masks.{is_other, masked, masked_login, name_for, stars, unread_text, word_for};

use account_book::AccountBook;
use command_grammar::{Command, ReadFault, Request};
use line_words::{NameBuf, SentenceBuf, TextBuf, WordBuf, is_name};
use std::alloc::{AllocError, Global};

/// The word that each account of a record has, and each login that passed: 16 bytes of 0 in base64.
pub const PASSES: &[u8; 24] = b"AAAAAAAAAAAAAAAAAAAAAA==";

/// The word of a login that did not name its account's. No account can have it, and no word is shorter, so the line of
/// such a login is no longer than it was.
pub const FAILS: &[u8; 1] = b"B";

/// In place of a login's name that is none. No word is shorter.
const NO_NAME: &[u8; 1] = b"?";

/// In place of a login's address. No word is shorter.
const NO_ADDRESS: &[u8; 1] = b"*";

/// What a record leaves out.
#[derive(Drop)]
pub struct Masks {
    /// The accounts, by whose words it is known which login passed.
    pub accounts: AccountBook,
    /// Whether what users say in private is written.
    pub private: bool,
}

impl Masks {
    /// What is written in place of a request, where it is not written as it is. Takes no memory for any other.
    pub(crate) fn in_place_of(
        &self,
        alloc: Global,
        request: &Request,
    ) -> Result<Option<Request>, AllocError>
        ensures other { IfOk result (λ other.
            unwrap_or other request.now ≡ masked self.now.accounts self.now.private request.now) }
        ensures exact { IfOk result (λ other. is_some other ≡ is_other self.now.private request.now.command) }
        ensures wanted { OnErr result (IsTrue (is_other self.now.private request.now.command)) }
    {
        let command = match &request.command {
            Command::Login {
                user_name,
                password,
                cpu,
                local_ip: _,
                lobby: _,
                authorises,
            } => self.login_in_place(alloc, user_name, password, *cpu, *authorises)?,
            Command::Join { channel, key } if key.is_some() => join_in_place(channel),
            Command::SayPrivate { user, text } if !self.private => Command::SayPrivate {
                user: user.copy(),
                text: stars_for(alloc, text)?,
            },
            _ => return Ok(None),
        };
        Ok(Some(Request {
            id: request.id,
            command,
        }))
    }

    /// What is written in place of a login. A password may stand at each place of its line.
    fn login_in_place(
        &self,
        alloc: Global,
        user_name: &WordBuf,
        password: &WordBuf,
        cpu: i64,
        authorises: bool,
    ) -> Result<Command, AllocError>
        ensures { IfOk result (λ login.
            login ≡ masked_login self.now.accounts user_name.now password.now cpu authorises) }
    {
        let name = self.name_for(user_name.as_slice(), password.as_slice());
        let word = self.word_for(user_name.as_slice(), password.as_slice());
        Ok(Command::Login {
            user_name: WordBuf::copy_of(alloc, name)?,
            password: WordBuf::copy_of(alloc, word)?,
            cpu,
            local_ip: WordBuf::copy_of(alloc, NO_ADDRESS)?,
            lobby: SentenceBuf::copy_of(alloc, b"")?,
            authorises,
        })
    }

    /// The name in place of this one.
    fn name_for<'a>(&self, name: &'a [u8], password: &[u8]) -> &'a [u8]
        ensures { result.now ≡ name_for self.now.accounts name.now password.now }
    {
        if is_name(name) || self.accounts.check(name, password).is_ok() {
            name
        } else {
            NO_NAME
        }
    }

    /// The word in place of this one.
    fn word_for(&self, name: &[u8], password: &[u8]) -> &'static [u8]
        ensures { result.now ≡ word_for self.now.accounts name.now password.now }
    {
        match self.accounts.check(name, password) {
            Ok(_) => PASSES,
            Err(_) => FAILS,
        }
    }
}

/// What is written in place of a join with a key, which the lobby does not look at.
fn join_in_place(channel: &NameBuf) -> Command
    ensures { result ≡ command.Join channel.now None }
{
    Command::Join {
        channel: channel.copy(),
        key: None,
    }
}

/// A text of as many `*`.
#[tactic(auto, using(crate::proofs::Masked::stars_more))]
fn stars_for(alloc: Global, text: &TextBuf) -> Result<TextBuf, AllocError>
    ensures { IfOk result (λ copy. copy ≡ stars text.now) }
{
    let mut stars = Vec::with_capacity(alloc, text.as_slice().len())?;
    for _ in text.as_slice() {
        stars.push(b'*')?;
    }
    TextBuf::copy_of(alloc, &stars)
}

/// The text, behind its id, in place of a line that could not be read. A record has no more of such a line than why:
/// somebody may have typed a password there.
pub(crate) fn unread_text(fault: ReadFault) -> &'static [u8]
    ensures { result.now ≡ unread_text fault }
{
    match fault {
        ReadFault::UnknownCommand => b"?",
        ReadFault::MissingArgument => b"JOIN",
        ReadFault::BadNumber => b"MYSTATUS ?",
        ReadFault::BadName => b"JOIN ?",
        ReadFault::BadByte => b"?\r?",
        ReadFault::BadPair => b"SETSCRIPTTAGS ?",
    }
}
