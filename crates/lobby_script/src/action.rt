//! What the lines of a script ask for.

ghost use Rattle.std.specs.Prelude.{◌≡◌, IfOk};
ghost use Rattle.proxy_line.specs.Words.{Finds};
ghost use Rattle.lobby_script.specs.Actions.{Arguments, IsAccount, IsLimit, IsMotd, IsOpen, IsPlain, IsRead, IsSend};
ghost use Rattle.lobby_script.specs.Actions.{Says, verb_of};

use crate::accounts::read_account;
use crate::escapes::unescape;
use account_book::Account;
use line_words::{TextBuf, is_text};
use lobby_model::schedule::Piece;
use proxy_line::{address, number, number_before, part_at};
use std::alloc::{AllocError, Global};

/// What a line of a script asks for. A label names a client within the script.
#[derive(Drop)]
pub enum Action {
    /// Something that is set before the first open.
    Set { setting: Setting },
    /// `open N IP`: a client connects, and gets the label.
    Open { label: u32, ip: [u8; 4] },
    /// Something for the client of a label.
    Client { label: u32, order: Order },
}

/// What is set before the first open.
#[derive(Drop)]
pub enum Setting {
    /// `account NAME WORD ID RANK [COUNTRY]`: one more account.
    Account { account: Account },
    /// `motd TEXT`: one more line of the message of the day.
    Motd { line: TextBuf },
    /// `limit N`: the most bytes that may wait unread for a client.
    Limit { bytes: u32 },
}

/// What is done for a client.
#[derive(Drop)]
pub enum Order {
    /// `send N TEXT`: the bytes that the text stands for come from it.
    Send { bytes: Piece },
    /// `take N`: its next line is taken.
    Take,
    /// `all N`: its lines are taken as long as one is ready.
    All,
    /// `read N K`: it reads at most so many bytes.
    Read { count: u32 },
    /// `shut N`: its connection is closed.
    Shut,
    /// `show N`: what was put to it is shown.
    Show,
}

const ACCOUNT: &[u8] = b"account";

const MOTD: &[u8] = b"motd";

const LIMIT: &[u8] = b"limit";

const OPEN: &[u8] = b"open";

const SEND: &[u8] = b"send";

const TAKE: &[u8] = b"take";

const ALL: &[u8] = b"all";

const READ: &[u8] = b"read";

const SHUT: &[u8] = b"shut";

const SHOW: &[u8] = b"show";

/// What the line asks for; `None` where it has none of the forms.
pub fn read_action(alloc: Global, line: &[u8]) -> Result<Option<Action>, AllocError>
    ensures { IfOk result (Finds (Says line.now)) }
{
    match part_at(line, b' ') {
        Some((verb, text)) => read_arguments(alloc, verb, text),
        None => Ok(None),
    }
}

fn read_arguments(alloc: Global, verb: &[u8], text: &[u8]) -> Result<Option<Action>, AllocError>
    ensures { IfOk result (Finds (λ action. (verb.now ≡ verb_of action) × Arguments text.now action)) }
{
    if verb == ACCOUNT {
        account(alloc, text)
    } else if verb == MOTD {
        motd(alloc, text)
    } else if verb == LIMIT {
        Ok(limit(text))
    } else if verb == OPEN {
        Ok(open(text))
    } else if verb == SEND {
        send(alloc, text)
    } else if verb == TAKE {
        Ok(plain(text, Order::Take))
    } else if verb == ALL {
        Ok(plain(text, Order::All))
    } else if verb == READ {
        Ok(read(text))
    } else if verb == SHUT {
        Ok(plain(text, Order::Shut))
    } else if verb == SHOW {
        Ok(plain(text, Order::Show))
    } else {
        Ok(None)
    }
}

fn account(alloc: Global, text: &[u8]) -> Result<Option<Action>, AllocError>
    ensures { IfOk result (Finds (IsAccount text.now)) }
{
    let Some(account) = read_account(alloc, text)? else {
        return Ok(None);
    };
    let setting = Setting::Account { account };
    Ok(Some(Action::Set { setting }))
}

fn motd(alloc: Global, text: &[u8]) -> Result<Option<Action>, AllocError>
    ensures { IfOk result (Finds (IsMotd text.now)) }
{
    if !is_text(text) {
        return Ok(None);
    }
    let setting = Setting::Motd {
        line: TextBuf::copy_of(alloc, text)?,
    };
    Ok(Some(Action::Set { setting }))
}

fn limit(text: &[u8]) -> Option<Action>
    ensures { Finds (IsLimit text.now) result }
{
    let bytes = number(text)?;
    let setting = Setting::Limit { bytes };
    Some(Action::Set { setting })
}

fn open(text: &[u8]) -> Option<Action>
    ensures { Finds (IsOpen text.now) result }
{
    let (label, rest) = number_before(text, b' ')?;
    let ip = address(rest)?;
    Some(Action::Open { label, ip })
}

fn send(alloc: Global, text: &[u8]) -> Result<Option<Action>, AllocError>
    ensures { IfOk result (Finds (IsSend text.now)) }
{
    let Some((label, rest)) = number_before(text, b' ') else {
        return Ok(None);
    };
    let Some(bytes) = unescape(alloc, rest)? else {
        return Ok(None);
    };
    let order = Order::Send { bytes };
    Ok(Some(Action::Client { label, order }))
}

fn read(text: &[u8]) -> Option<Action>
    ensures { Finds (IsRead text.now) result }
{
    let (label, rest) = number_before(text, b' ')?;
    let order = Order::Read {
        count: number(rest)?,
    };
    Some(Action::Client { label, order })
}

/// An order that has nothing behind its label.
fn plain(text: &[u8], order: Order) -> Option<Action>
    ensures { Finds (IsPlain text.now order) result }
{
    let label = number(text)?;
    Some(Action::Client { label, order })
}
