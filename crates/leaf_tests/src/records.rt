//! What a record has: the lines of each kind of event, what of a line is not written, and the head, read back.

use crate::lists::are;
use crate::verdict::{same, same_for};
use account_book::{Account, AccountBook};
use command_grammar::{Command, ReadFault, Request, read_request};
use line_words::TextBuf;
use lobby_model::{Event, MadeEvent, Settings};
use lobby_setup::Setup;
use record_lines::{
    FAILS, Masks, PASSES, RecordFault, accounts_file, put_account, put_entry, settings_file,
};
use std::alloc::{AllocError, Global};

const WORD: &[u8] = b"X03MO1qnZdYdgyfeuILPmQ==";

/// A line that client 3 said at place 9, whether private talk is written, and the lines of the record.
type Said = (&'static [u8], bool, &'static [u8]);

static SAID: [Said; 15] = [
    (
        b"#4 LOGIN Anna X03MO1qnZdYdgyfeuILPmQ== 0 * TestLobby 1.0\t7\tb",
        true,
        b"9 send 3 #4 LOGIN Anna AAAAAAAAAAAAAAAAAAAAAA== 0 * \\t\\tb\\n\n9 take 3\n",
    ),
    (
        b"LOGIN Anna X03MO1qnZdYdgyfeuILPmA== -1 10.0.0.1 x",
        true,
        b"9 send 3 LOGIN Anna B -1 * \\n\n9 take 3\n",
    ),
    (
        b"LOGIN Anna AAAAAAAAAAAAAAAAAAAAAA== 0 * x",
        true,
        b"9 send 3 LOGIN Anna B 0 * \\n\n9 take 3\n",
    ),
    (
        b"LOGIN Bert X03MO1qnZdYdgyfeuILPmQ== 0 * x",
        true,
        b"9 send 3 LOGIN Bert B 0 * \\n\n9 take 3\n",
    ),
    (
        b"SAYPRIVATE Bert hi there",
        true,
        b"9 send 3 SAYPRIVATE Bert hi there\\n\n9 take 3\n",
    ),
    (
        b"SAYPRIVATE Bert hi there",
        false,
        b"9 send 3 SAYPRIVATE Bert ********\\n\n9 take 3\n",
    ),
    (
        b"  SAY  main hi",
        false,
        b"9 send 3 SAY main hi\\n\n9 take 3\n",
    ),
    (
        b"SAY main a\\b\x00\x1b\x1f\x7f~ \xc3\xa9\xff",
        true,
        b"9 send 3 SAY main a\\\\b\\x00\\x1b\\x1f\\x7f~ \xc3\xa9\xff\\n\n9 take 3\n",
    ),
    (b"", true, b"9 send 3 \\n\n9 take 3\n"),
    (b"#7 hunter2", true, b"9 send 3 #7 ?\\n\n9 take 3\n"),
    (
        b"#2147483647 MYSTATUS hunter2",
        true,
        b"9 send 3 #2147483647 MYSTATUS ?\\n\n9 take 3\n",
    ),
    (b"PING\rhunter2", true, b"9 send 3 ?\\r?\\n\n9 take 3\n"),
    (
        b"#1 JOIN hunter-2",
        true,
        b"9 send 3 #1 JOIN ?\\n\n9 take 3\n",
    ),
    (b"LOGIN hunter2", true, b"9 send 3 JOIN\\n\n9 take 3\n"),
    (
        b"SETSCRIPTTAGS hunter2",
        true,
        b"9 send 3 SETSCRIPTTAGS ?\\n\n9 take 3\n",
    ),
];

#[test]
fn what_was_said_is_written_without_words(rt: HostRuntime) {
    for (line, private, wanted) in &SAID {
        let told = is_said_as(rt.alloc(), line, *private, wanted);
        same_for(&rt, line, told, Ok(true));
    }
}

/// A password out of its place, and the lines of the record, which do not have it.
static ASTRAY: [(&[u8], &[u8]); 7] = [
    (
        b"LOGIN X03MO1qnZdYdgyfeuILPmQ== Anna 0 * x",
        b"9 send 3 LOGIN ? B 0 * \\n\n9 take 3\n",
    ),
    (
        b"LOGIN hunter-2 X03MO1qnZdYdgyfeuILPmQ== 0 * x",
        b"9 send 3 LOGIN ? B 0 * \\n\n9 take 3\n",
    ),
    (
        b"LOGIN Anna hunter2 -7 hunter2 hunter2",
        b"9 send 3 LOGIN Anna B -7 * \\n\n9 take 3\n",
    ),
    (
        b"LOGIN Anna X03MO1qnZdYdgyfeuILPmQ== 0 hunter2 hunter2\thunter2\thunter2 b",
        b"9 send 3 LOGIN Anna AAAAAAAAAAAAAAAAAAAAAA== 0 * \\t\\tb\\n\n9 take 3\n",
    ),
    (
        b"#8 LOGIN Anna X03MO1qnZdYdgyfeuILPmQ== 0 * hunter2\thunter2",
        b"9 send 3 #8 LOGIN Anna AAAAAAAAAAAAAAAAAAAAAA== 0 * \\n\n9 take 3\n",
    ),
    (b"JOIN main hunter2", b"9 send 3 JOIN main\\n\n9 take 3\n"),
    (b"#6 JOIN main", b"9 send 3 #6 JOIN main\\n\n9 take 3\n"),
];

#[test]
fn a_password_out_of_its_place_is_not_written(rt: HostRuntime) {
    for (line, wanted) in &ASTRAY {
        let told = is_said_as(rt.alloc(), line, true, wanted);
        same_for(&rt, line, told, Ok(true));
    }
}

/// Whether a line that client 3 said at place 9 is recorded so.
fn is_said_as(
    alloc: Global,
    line: &[u8],
    private: bool,
    wanted: &[u8],
) -> Result<bool, RecordFault> {
    match read_request(alloc, line) {
        Ok(request) => {
            let said = Event::Say { client: 3, request };
            is_recorded_as(alloc, private, said, 0, wanted)
        }
        Err(_) => Err(RecordFault::Memory),
    }
}

#[test]
fn a_connect_a_read_and_a_disconnect_are_a_line_each(rt: HostRuntime) {
    let open = Event::Open {
        ip: [10, 0, 255, 1],
        home: 2,
    };
    let opened = is_recorded_as(
        rt.alloc(),
        true,
        open,
        4_294_967_295,
        b"9 open 4294967295 10.0.255.1\n",
    );
    same_for(&rt, &"open", opened, Ok(true));
    let drain = Event::Drain {
        client: 3,
        count: 4_096,
    };
    let drained = is_recorded_as(rt.alloc(), true, drain, 17, b"9 read 3 17\n");
    same_for(&rt, &"drain", drained, Ok(true));
    let shut = Event::Shut { client: 3 };
    let gone = is_recorded_as(rt.alloc(), true, shut, 0, b"9 shut 3\n");
    same_for(&rt, &"shut", gone, Ok(true));
    let late = Event::Shut {
        client: 4_294_967_296,
    };
    let none = is_recorded_as(rt.alloc(), true, late, 0, b"");
    same_for(&rt, &"late", none, Err(RecordFault::Number));
}

/// A line in place of one that cannot be read, and why it cannot.
static UNREAD: [(&[u8], ReadFault); 6] = [
    (b"?", ReadFault::UnknownCommand),
    (b"JOIN", ReadFault::MissingArgument),
    (b"MYSTATUS ?", ReadFault::BadNumber),
    (b"JOIN ?", ReadFault::BadName),
    (b"?\r?", ReadFault::BadByte),
    (b"SETSCRIPTTAGS ?", ReadFault::BadPair),
];

#[test]
fn the_line_in_place_of_one_that_was_not_read_is_not_read_either(rt: HostRuntime) {
    for (line, fault) in &UNREAD {
        same_for(&rt, line, fault_in(rt.alloc(), line), Some(*fault));
    }
}

/// Why a line cannot be read.
fn fault_in(alloc: Global, line: &[u8]) -> Option<ReadFault> {
    let request = read_request(alloc, line).ok()?;
    let fault = match &request.command {
        Command::Unread(fault) => Some(*fault),
        _ => None,
    };
    request.discard();
    fault
}

/// Whether an event at place 9 is recorded so, behind what stood there, where Anna has an account.
fn is_recorded_as(
    alloc: Global,
    private: bool,
    event: Event,
    gain: u64,
    wanted: &[u8],
) -> Result<bool, RecordFault> {
    let made = MadeEvent {
        place: 9,
        event,
        gain,
    };
    let masks = Masks {
        accounts: book(alloc)?,
        private,
    };
    let mut out = Vec::from_slice(alloc, b"before\n")?;
    let mut text = Vec::from_slice(alloc, b"an older text")?;
    put_entry(alloc, &mut out, &mut text, &masks, &made)?;
    Ok(out.starts_with(b"before\n") && &out[7..] == wanted)
}

fn book(alloc: Global) -> Result<AccountBook, AllocError> {
    let mut accounts = AccountBook::new(alloc);
    if let Ok(anna) = Account::new(alloc, b"Anna", WORD, 4294967295, 7, true, false, b"DE") {
        if accounts.add(anna).is_err() {
            return Err(AllocError);
        }
    }
    Ok(accounts)
}

#[test]
fn an_account_of_a_head_is_read_back_without_its_word(rt: HostRuntime) {
    same(&rt, account_read_back(rt.alloc()), Some(true));
}

fn account_read_back(alloc: Global) -> Option<bool> {
    let mut head = Vec::new(alloc);
    put_anna(alloc, &mut head)?;
    let read = AccountBook::read(alloc, &head).ok()?;
    Some(is_anna(read.get(b"Anna")) && passes_alone(&read))
}

fn put_anna(alloc: Global, head: &mut Vec<u8>) -> Option<()> {
    let accounts = book(alloc).ok()?;
    put_account(alloc, head, accounts.get(b"Anna")?).ok()
}

static LISTED: &[u8] = b"format = 2
[[account]]
name = \"Ben\"
password = \"X03MO1qnZdYdgyfeuILPmQ==\"
id = 1

[[account]]
name = \"Cleo\"
password = \"X03MO1qnZdYdgyfeuILPmQ==\"
id = 2
disabled = true

[[account]]
name = \"[d]_9\"
password = \"X03MO1qnZdYdgyfeuILPmQ==\"
id = 3
country = \"SE\"
";

static WRITTEN: &[u8] = b"[[account]]
access = false
bot = false
country = \"??\"
id = 1
name = \"Ben\"
password = \"AAAAAAAAAAAAAAAAAAAAAA==\"
rank = 0

[[account]]
access = false
bot = false
country = \"SE\"
id = 3
name = \"[d]_9\"
password = \"AAAAAAAAAAAAAAAAAAAAAA==\"
rank = 0
";

#[test]
fn the_accounts_of_a_file_are_written_without_words_and_disabled_ones(rt: HostRuntime) {
    let written = match accounts_file(rt.alloc(), LISTED) {
        Ok(made) => made.as_slice() == WRITTEN,
        Err(_) => false,
    };
    same(&rt, written, true);
}

/// Whether it is the account of the book, but for its word.
fn is_anna(account: Option<&Account>) -> bool {
    match account {
        Some(anna) => {
            anna.password() == PASSES.as_slice()
                && anna.id() == 4294967295
                && anna.rank() == 7
                && anna.access()
                && !anna.bot()
                && anna.country().as_slice() == b"DE".as_slice()
        }
        None => false,
    }
}

fn passes_alone(accounts: &AccountBook) -> bool {
    accounts.check(b"Anna", PASSES).is_ok() && accounts.check(b"Anna", FAILS).is_err()
}

#[test]
fn settings_of_a_head_are_read_back(rt: HostRuntime) {
    same(&rt, settings_read_back(rt.alloc()), Some(true));
}

static MOTD: [&[u8]; 3] = [
    b"Gr\xc3\xbc\xc3\x9fe \"an\" alle\\",
    b"",
    b"\ta\x00\x1b\x7f",
];

fn motd(alloc: Global) -> Option<Vec<TextBuf>> {
    let mut motd = Vec::new(alloc);
    for line in &MOTD {
        motd.push(TextBuf::copy_of(alloc, line).ok()?).ok()?;
    }
    Some(motd)
}

fn head_of_settings(alloc: Global) -> Option<Vec<u8>> {
    let motd = motd(alloc)?;
    let set = Settings::new(alloc, b"0.39\"", b"\\*", 65_535, 1, &motd, 65_536).ok()?;
    settings_file(alloc, "0.1.0", &set).ok()
}

fn settings_read_back(alloc: Global) -> Option<bool> {
    let head = head_of_settings(alloc)?;
    let read = Setup::read(alloc, &head).ok()?;
    let found = &read.settings;
    Some(
        found.protocol_version().as_slice() == b"0.39\"".as_slice()
            && found.spring_version().as_slice() == b"\\*".as_slice()
            && found.udp_port() == 65_535
            && found.server_mode() == 1
            && found.outbox_limit() == 65_536
            && are(found.motd().as_slice(), &MOTD),
    )
}
