//! Lines that are read with memory at hand, and requests that are printed as lines.

use crate::lists::are;
use crate::verdict::{same, same_for};
use command_grammar::{Command, ReadFault, Request, read_request};
use line_words::{PairList, TextBuf, WordBuf, WordList};
use request_printer::{PrintError, print_request};
use std::alloc::Global;

/// A line of each command.
// Written by tools/protocol.py of protocol/commands.toml: good lines.
static GOOD_LINES: [&[u8]; 36] = [
    b"PING",
    b"CHANNELS",
    b"LEAVEBATTLE",
    b"EXIT bye",
    b"LOGIN Anna X03MO1qnZdYdgyfeuILPmQ== 0 * TestLobby 1.0",
    b"MYSTATUS -0",
    b"JOIN  main  ",
    b"LEAVE main",
    b"SAY main ",
    b"SAYEX main waves",
    b"SAYPRIVATE Bert  hi",
    b"OPENBATTLE 0 0 * 8452 8 -1 0 123 Spring\t104.0\tComet Catcher\tAnna's game\tBA 9.46",
    b"JOINBATTLE 1 * pw9",
    b"JOINBATTLEACCEPT Bert",
    b"JOINBATTLEDENY Bert not today",
    b"UPDATEBATTLEINFO 0 1 123 Comet Catcher",
    b"MYBATTLESTATUS 4294967295 -1",
    b"SAYBATTLE ",
    b"SAYBATTLEEX hi",
    b"ADDBOT Robo 1024 255 KAIK",
    b"UPDATEBOT Robo 1024 255",
    b"REMOVEBOT Robo",
    b"ADDSTARTRECT 1 0 0 200 60",
    b"REMOVESTARTRECT 15",
    b"SETSCRIPTTAGS \ta=1\t\tb=",
    b"REMOVESCRIPTTAGS k2 k1 zz k2",
    b"DISABLEUNITS armcom corcom armcom",
    b"ENABLEUNITS x",
    b"ENABLEALLUNITS",
    b"HANDICAP Anna 50",
    b"FORCETEAMNO Bert 5",
    b"FORCEALLYNO Bert 15",
    b"FORCETEAMCOLOR Bert -2147483648",
    b"FORCESPECTATORMODE Bert",
    b"KICKFROMBATTLE Bert",
    b"RING Bert",
];
// End of what is written: good lines.

#[test]
fn each_command_is_read(rt: HostRuntime) {
    for line in &GOOD_LINES {
        same_for(
            &rt,
            line,
            is_read_as(rt.alloc(), line, &Expected::Named(*line)),
            true,
        );
    }
}

// Written by tools/protocol.py of protocol/commands.toml: bad lines.
static FAULTS: [(&[u8], ReadFault); 21] = [
    (b"ping", ReadFault::UnknownCommand),
    (b"#9", ReadFault::UnknownCommand),
    (b"#2147483648 PING", ReadFault::UnknownCommand),
    (b"SAY main", ReadFault::MissingArgument),
    (b"REMOVESCRIPTTAGS", ReadFault::MissingArgument),
    (b"JOINBATTLEACCEPT ", ReadFault::MissingArgument),
    (b"JOINBATTLEDENY", ReadFault::MissingArgument),
    (b"DISABLEUNITS", ReadFault::MissingArgument),
    (b"ENABLEUNITS  ", ReadFault::MissingArgument),
    (b"MYSTATUS 1x", ReadFault::BadNumber),
    (b"MYSTATUS 4294967296", ReadFault::BadNumber),
    (b"MYSTATUS 00000000001", ReadFault::BadNumber),
    (b"REMOVESTARTRECT 16", ReadFault::BadNumber),
    (b"JOIN a-b", ReadFault::BadName),
    (b"JOINBATTLEACCEPT a-b", ReadFault::BadName),
    (b"JOINBATTLEDENY a-b no", ReadFault::BadName),
    (b"JOIN a\tb", ReadFault::BadByte),
    (b"SAY main a\rb", ReadFault::BadByte),
    (b"JOINBATTLEDENY Bert a\rb", ReadFault::BadByte),
    (b"DISABLEUNITS arm\tcom", ReadFault::BadByte),
    (b"SETSCRIPTTAGS =1", ReadFault::BadPair),
];
// End of what is written: bad lines.

#[test]
fn faults_are_told(rt: HostRuntime) {
    for (line, fault) in &FAULTS {
        let expected = Expected::Unread(*fault);
        same_for(&rt, line, is_read_as(rt.alloc(), line, &expected), true);
    }
}

static IDS: [(&[u8], Option<u32>); 6] = [
    (b"PING", None),
    (b"  #007  PING", Some(7)),
    (b"#2147483647 PING", Some(2147483647)),
    (b"#2147483648 PING", None),
    (b"#-0 PING", None),
    (b"#9 ", Some(9)),
];

#[test]
fn ids_are_read(rt: HostRuntime) {
    for (line, id) in &IDS {
        let expected = Expected::Id(*id);
        same_for(&rt, line, is_read_as(rt.alloc(), line, &expected), true);
    }
}

/// What a line must be read as.
#[derive(Clone, Copy)]
enum Expected {
    // the command that this line names
    Named(&'static [u8]),
    // no command
    Unread(ReadFault),
    // anything under this id
    Id(Option<u32>),
    Join {
        channel: &'static [u8],
        key: Option<&'static [u8]>,
    },
    SayPrivate {
        user: &'static [u8],
        text: &'static [u8],
    },
    MyStatus {
        status: u32,
    },
    Deny {
        user: &'static [u8],
        reason: Option<&'static [u8]>,
    },
    Login {
        authorises: bool,
    },
    Tags(&'static [(&'static [u8], &'static [u8])]),
}

static READ_LINES: [(&[u8], Expected); 17] = [
    (
        b"JOIN  main  ",
        Expected::Join {
            channel: b"main",
            key: None,
        },
    ),
    (
        b"JOIN main k",
        Expected::Join {
            channel: b"main",
            key: Some(b"k"),
        },
    ),
    (
        b"JOIN main  k more",
        Expected::Join {
            channel: b"main",
            key: Some(b"k"),
        },
    ),
    (
        b"SAYPRIVATE Bert  hi",
        Expected::SayPrivate {
            user: b"Bert",
            text: b" hi",
        },
    ),
    (b"MYSTATUS -0", Expected::MyStatus { status: 0 }),
    (
        b"MYSTATUS 4294967295",
        Expected::MyStatus { status: 4294967295 },
    ),
    (
        b"JOINBATTLEDENY Bert",
        Expected::Deny {
            user: b"Bert",
            reason: None,
        },
    ),
    (
        b"JOINBATTLEDENY Bert ",
        Expected::Deny {
            user: b"Bert",
            reason: Some(b""),
        },
    ),
    (
        b"JOINBATTLEDENY Bert not  today",
        Expected::Deny {
            user: b"Bert",
            reason: Some(b"not  today"),
        },
    ),
    (
        b"LOGIN Anna X03MO1qnZdYdgyfeuILPmQ== 0 * TestLobby 1.0",
        Expected::Login { authorises: false },
    ),
    (
        b"LOGIN Anna X03MO1qnZdYdgyfeuILPmQ== 0 * TestLobby 1.0\t0",
        Expected::Login { authorises: false },
    ),
    (
        b"LOGIN Anna X03MO1qnZdYdgyfeuILPmQ== 0 * TestLobby 1.0\t0\tb",
        Expected::Login { authorises: true },
    ),
    (
        b"LOGIN Anna X03MO1qnZdYdgyfeuILPmQ== 0 * TestLobby 1.0\t0\ta b  sp",
        Expected::Login { authorises: true },
    ),
    (
        b"LOGIN Anna X03MO1qnZdYdgyfeuILPmQ== 0 * TestLobby 1.0\t0\tB bb",
        Expected::Login { authorises: false },
    ),
    (
        b"LOGIN Anna X03MO1qnZdYdgyfeuILPmQ== 0 * TestLobby 1.0\tb",
        Expected::Login { authorises: false },
    ),
    (
        b"LOGIN Anna X03MO1qnZdYdgyfeuILPmQ== 0 * TestLobby 1.0\t0\tb\tx",
        Expected::Login { authorises: true },
    ),
    (
        b"SETSCRIPTTAGS \ta=1\t\tb=",
        Expected::Tags(&[(b"a", b"1"), (b"b", b"")]),
    ),
];

fn is_word(word: &Option<WordBuf>, expected: Option<&[u8]>) -> bool {
    match (word, expected) {
        (Some(word), Some(expected)) => word.as_slice() == expected,
        (None, None) => true,
        _ => false,
    }
}

fn is_join(command: &Command, channel: &[u8], key: Option<&[u8]>) -> bool {
    match command {
        Command::Join {
            channel: name,
            key: word,
        } => name.as_slice() == channel && is_word(word, key),
        _ => false,
    }
}

fn is_private(command: &Command, user: &[u8], text: &[u8]) -> bool {
    match command {
        Command::SayPrivate {
            user: name,
            text: said,
        } => name.as_slice() == user && said.as_slice() == text,
        _ => false,
    }
}

fn is_status(command: &Command, status: u32) -> bool {
    match command {
        Command::MyStatus { status: asked } => *asked == status,
        _ => false,
    }
}

fn is_text(text: &Option<TextBuf>, expected: Option<&[u8]>) -> bool {
    match (text, expected) {
        (Some(text), Some(expected)) => text.as_slice() == expected,
        (None, None) => true,
        _ => false,
    }
}

fn is_deny(command: &Command, user: &[u8], reason: Option<&[u8]>) -> bool {
    match command {
        Command::JoinBattleDeny {
            user: name,
            reason: text,
        } => name.as_slice() == user && is_text(text, reason),
        _ => false,
    }
}

fn is_login(command: &Command, authorises: bool) -> bool {
    match command {
        Command::Login {
            authorises: asked,
            ..
        } => *asked == authorises,
        _ => false,
    }
}

/// Whether these are the tags, in their order.
fn has_tags(command: &Command, wanted: &[(&[u8], &[u8])]) -> bool {
    let Command::SetScriptTags { pairs } = command else {
        return false;
    };
    are(pairs.as_slice(), wanted)
}

/// The word of a command; none of one that is blank or not read.
fn word_of(command: &Command) -> &'static [u8] {
    match command {
        Command::Blank | Command::Unread(_) => b"",
        // Written by tools/protocol.py of protocol/commands.toml: words.
        Command::Ping => b"PING",
        Command::Channels => b"CHANNELS",
        Command::Exit => b"EXIT",
        Command::Login { .. } => b"LOGIN",
        Command::MyStatus { .. } => b"MYSTATUS",
        Command::Join { .. } => b"JOIN",
        Command::Leave { .. } => b"LEAVE",
        Command::Say { .. } => b"SAY",
        Command::SayEx { .. } => b"SAYEX",
        Command::SayPrivate { .. } => b"SAYPRIVATE",
        Command::OpenBattle { .. } => b"OPENBATTLE",
        Command::JoinBattle { .. } => b"JOINBATTLE",
        Command::LeaveBattle => b"LEAVEBATTLE",
        Command::SayBattle { .. } => b"SAYBATTLE",
        Command::SayBattleEx { .. } => b"SAYBATTLEEX",
        Command::Ring { .. } => b"RING",
        // End of what is written: words.
        _ => word_in_a_battle(command),
    }
}

/// The word of a command that changes a battle; none of another.
fn word_in_a_battle(command: &Command) -> &'static [u8] {
    match command {
        // Written by tools/protocol.py of protocol/commands.toml: other words.
        Command::JoinBattleAccept { .. } => b"JOINBATTLEACCEPT",
        Command::JoinBattleDeny { .. } => b"JOINBATTLEDENY",
        Command::UpdateBattleInfo { .. } => b"UPDATEBATTLEINFO",
        Command::MyBattleStatus { .. } => b"MYBATTLESTATUS",
        Command::AddBot { .. } => b"ADDBOT",
        Command::UpdateBot { .. } => b"UPDATEBOT",
        Command::RemoveBot { .. } => b"REMOVEBOT",
        Command::AddStartRect { .. } => b"ADDSTARTRECT",
        Command::RemoveStartRect { .. } => b"REMOVESTARTRECT",
        Command::SetScriptTags { .. } => b"SETSCRIPTTAGS",
        Command::RemoveScriptTags { .. } => b"REMOVESCRIPTTAGS",
        Command::DisableUnits { .. } => b"DISABLEUNITS",
        Command::EnableUnits { .. } => b"ENABLEUNITS",
        Command::EnableAllUnits => b"ENABLEALLUNITS",
        Command::Handicap { .. } => b"HANDICAP",
        Command::ForceTeamNo { .. } => b"FORCETEAMNO",
        Command::ForceAllyNo { .. } => b"FORCEALLYNO",
        Command::ForceTeamColor { .. } => b"FORCETEAMCOLOR",
        Command::ForceSpectatorMode { .. } => b"FORCESPECTATORMODE",
        Command::KickFromBattle { .. } => b"KICKFROMBATTLE",
        // End of what is written: other words.
        _ => b"",
    }
}

/// Whether the first word of a line is that of the command.
fn is_named_in(command: &Command, line: &[u8]) -> bool {
    let word = word_of(command);
    match line.strip_prefix(word) {
        Some(rest) => !word.is_empty() && (rest.is_empty() || rest.starts_with(b" ")),
        None => false,
    }
}

fn fault_of(command: &Command) -> Option<ReadFault> {
    match command {
        Command::Unread(fault) => Some(*fault),
        _ => None,
    }
}

fn is_as(request: &Request, expected: &Expected) -> bool {
    let command = &request.command;
    match expected {
        Expected::Named(line) => is_named_in(command, line),
        Expected::Unread(fault) => fault_of(command) == Some(*fault),
        Expected::Id(id) => request.id == *id,
        Expected::Join { channel, key } => is_join(command, channel, *key),
        Expected::SayPrivate { user, text } => is_private(command, user, text),
        Expected::MyStatus { status } => is_status(command, *status),
        Expected::Deny { user, reason } => is_deny(command, user, *reason),
        Expected::Login { authorises } => is_login(command, *authorises),
        Expected::Tags(wanted) => has_tags(command, wanted),
    }
}

/// Whether a line is read so; not where memory is refused.
fn is_read_as(alloc: Global, line: &[u8], expected: &Expected) -> bool {
    match read_request(alloc, line) {
        Ok(request) => {
            let is_read = is_as(&request, expected);
            request.discard();
            is_read
        }
        Err(_) => false,
    }
}

#[test]
fn arguments_are_read(rt: HostRuntime) {
    for (line, expected) in &READ_LINES {
        same_for(&rt, line, is_read_as(rt.alloc(), line, expected), true);
    }
}

/// A line of each command, with and without what may be left out, and the line that its request prints as.
// Written by tools/protocol.py of protocol/commands.toml: printed lines.
static PRINTED_LINES: [(&[u8], &[u8]); 56] = [
    (b"", b""),
    (b"  #7  ", b"#7 "),
    (b"PING", b"PING"),
    (b"#007 PING and more", b"#7 PING"),
    (b"#0 PING", b"#0 PING"),
    (b"#2147483647 PING", b"#2147483647 PING"),
    (b"CHANNELS", b"CHANNELS"),
    (b"LEAVEBATTLE", b"LEAVEBATTLE"),
    (b"EXIT bye", b"EXIT"),
    (
        b"LOGIN Anna X03MO1qnZdYdgyfeuILPmQ== 0 * TestLobby 1.0",
        b"LOGIN Anna X03MO1qnZdYdgyfeuILPmQ== 0 * TestLobby 1.0",
    ),
    (
        b"LOGIN Anna X 4294967295 *  \t0\tsp b",
        b"LOGIN Anna X 4294967295 *  \t\tb",
    ),
    (
        b"#3 LOGIN a b -2147483648 c ",
        b"#3 LOGIN a b -2147483648 c ",
    ),
    (b"MYSTATUS -0", b"MYSTATUS 0"),
    (b"MYSTATUS 4294967295", b"MYSTATUS 4294967295"),
    (b"JOIN  main  ", b"JOIN main"),
    (b"#8 JOIN main key", b"#8 JOIN main key"),
    (b"LEAVE a_[b]", b"LEAVE a_[b]"),
    (b"SAY main ", b"SAY main "),
    (b"#9 SAY main  a\tb ", b"#9 SAY main  a\tb "),
    (b"SAYEX main waves", b"SAYEX main waves"),
    (b"SAYPRIVATE Bert  hi", b"SAYPRIVATE Bert  hi"),
    (
        b"OPENBATTLE 0 2 * 08452 8 -1 0 4294967295 Spring\t104.0\tComet Catcher\tAnna's game\tBA 9.46\tx",
        b"OPENBATTLE 0 2 * 8452 8 -1 0 4294967295 Spring\t104.0\tComet Catcher\tAnna's game\tBA 9.46",
    ),
    (
        b"OPENBATTLE 1 0 pw 65535 0 0 0 0 \t\t\t\t",
        b"OPENBATTLE 1 0 pw 65535 0 0 0 0 \t\t\t\t",
    ),
    (b"JOINBATTLE 1", b"JOINBATTLE 1"),
    (b"JOINBATTLE 2147483647 pw", b"JOINBATTLE 2147483647 pw"),
    (b"#1 JOINBATTLE 0 * pw9", b"#1 JOINBATTLE 0 * pw9"),
    (b"JOINBATTLEACCEPT Bert", b"JOINBATTLEACCEPT Bert"),
    (b"JOINBATTLEDENY Bert", b"JOINBATTLEDENY Bert"),
    (b"JOINBATTLEDENY Bert ", b"JOINBATTLEDENY Bert "),
    (
        b"JOINBATTLEDENY Bert not  today",
        b"JOINBATTLEDENY Bert not  today",
    ),
    (
        b"UPDATEBATTLEINFO 0 1 123 Comet Catcher",
        b"UPDATEBATTLEINFO 0 1 123 Comet Catcher",
    ),
    (
        b"UPDATEBATTLEINFO 65535 0 -7  x",
        b"UPDATEBATTLEINFO 65535 0 -7  x",
    ),
    (
        b"MYBATTLESTATUS 4294967295 -1",
        b"MYBATTLESTATUS 4294967295 -1",
    ),
    (b"SAYBATTLE ", b"SAYBATTLE "),
    (b"SAYBATTLEEX hi", b"SAYBATTLEEX hi"),
    (b"ADDBOT Robo 1024 255 KAIK", b"ADDBOT Robo 1024 255 KAIK"),
    (b"ADDBOT Robo 1024 255 ", b"ADDBOT Robo 1024 255 "),
    (b"UPDATEBOT Robo 1024 255", b"UPDATEBOT Robo 1024 255"),
    (b"REMOVEBOT Robo", b"REMOVEBOT Robo"),
    (b"ADDSTARTRECT 15 0 0 200 60", b"ADDSTARTRECT 15 0 0 200 60"),
    (b"REMOVESTARTRECT 015", b"REMOVESTARTRECT 15"),
    (b"SETSCRIPTTAGS \ta=1\t\tb=", b"SETSCRIPTTAGS a=1\tb="),
    (b"#5 SETSCRIPTTAGS a==b c", b"#5 SETSCRIPTTAGS a==b c"),
    (b"REMOVESCRIPTTAGS k2 k1  k2 ", b"REMOVESCRIPTTAGS k2 k1 k2"),
    (
        b"DISABLEUNITS armcom corcom armcom",
        b"DISABLEUNITS armcom corcom armcom",
    ),
    (b"ENABLEUNITS x", b"ENABLEUNITS x"),
    (b"ENABLEALLUNITS", b"ENABLEALLUNITS"),
    (b"HANDICAP Anna 100", b"HANDICAP Anna 100"),
    (b"FORCETEAMNO Bert 5", b"FORCETEAMNO Bert 5"),
    (b"FORCEALLYNO Bert 15", b"FORCEALLYNO Bert 15"),
    (
        b"FORCETEAMCOLOR Bert -2147483648",
        b"FORCETEAMCOLOR Bert -2147483648",
    ),
    (b"FORCESPECTATORMODE Bert", b"FORCESPECTATORMODE Bert"),
    (b"KICKFROMBATTLE Bert", b"KICKFROMBATTLE Bert"),
    (b"#2 RING Bert", b"#2 RING Bert"),
    (b"SAYBATTLE \xC3\xA4\xFF\x00", b"SAYBATTLE \xC3\xA4\xFF\x00"),
    (b"SAYPRIVATE Bert ", b"SAYPRIVATE Bert "),
];
// End of what is written: printed lines.

#[test]
fn each_request_is_printed_as_it_reads(rt: HostRuntime) {
    for (line, printed) in &PRINTED_LINES {
        same_for(&rt, line, prints(rt.alloc(), line, printed), true);
        same_for(&rt, printed, prints(rt.alloc(), printed, printed), true);
    }
}

/// Whether the request of a line prints as this line, behind what was there.
fn prints(alloc: Global, line: &[u8], printed: &[u8]) -> bool {
    let Ok(request) = read_request(alloc, line) else {
        return false;
    };
    let mut out = Vec::new(alloc);
    let is_done = out.push(b'>').is_ok() && print_request(&request, &mut out).is_ok();
    request.discard();
    match out.as_slice() {
        [b'>', told @ .., b'\n'] => is_done && told == printed,
        _ => false,
    }
}

/// Why the request of this id and command is refused; None where it is printed, or where something was put.
fn refusal(alloc: Global, id: Option<u32>, command: Command) -> Option<PrintError> {
    let request = Request { id, command };
    let mut out = Vec::new(alloc);
    let done = print_request(&request, &mut out);
    request.discard();
    match done {
        Err(error) if out.is_empty() => Some(error),
        _ => None,
    }
}

#[test]
fn numbers_out_of_range_are_not_printed(rt: HostRuntime) {
    let alloc = rt.alloc();
    let wanted = Some(PrintError::OutOfRange);
    same(&rt, refusal(alloc, Some(2147483648), Command::Ping), wanted);
    for team_color in [-2147483649, 4294967296] {
        let command = Command::MyBattleStatus {
            battle_status: 0,
            team_color,
        };
        same(&rt, refusal(alloc, None, command), wanted);
    }
    for ally_no in [16, 255] {
        let command = Command::RemoveStartRect { ally_no };
        same(&rt, refusal(alloc, None, command), wanted);
    }
    let command = Command::AddStartRect {
        ally_no: 0,
        left: 0,
        top: 200,
        right: 201,
        bottom: 0,
    };
    same(&rt, refusal(alloc, None, command), wanted);
    let command = Command::JoinBattle {
        battle: 2147483648,
        password: None,
        script_password: None,
    };
    same(&rt, refusal(alloc, None, command), wanted);
}

#[test]
fn what_has_no_line_is_not_printed(rt: HostRuntime) {
    let alloc = rt.alloc();
    let command = Command::Unread(ReadFault::BadName);
    same(&rt, refusal(alloc, None, command), Some(PrintError::Unread));
    let nothing = Some(PrintError::NothingListed);
    let command = Command::SetScriptTags {
        pairs: PairList::new(Vec::new(alloc)),
    };
    same(&rt, refusal(alloc, None, command), nothing);
    let command = Command::EnableUnits {
        units: WordList::new(Vec::new(alloc)),
    };
    same(&rt, refusal(alloc, None, command), nothing);
    let command = Command::JoinBattle {
        battle: 1,
        password: None,
        script_password: WordBuf::copy_of(alloc, b"pw9").ok(),
    };
    same(
        &rt,
        refusal(alloc, None, command),
        Some(PrintError::Skipped),
    );
}

/// A text of so many bytes, said in a battle under an id.
fn said(alloc: Global, count: usize) -> Option<PrintError> {
    let mut bytes = Vec::new(alloc);
    for _ in 0..count {
        if bytes.push(b'x').is_err() {
            return None;
        }
    }
    let text = TextBuf::of(bytes)?;
    refusal(alloc, Some(7), Command::SayBattle { text })
}

#[test]
fn a_line_that_is_too_long_is_not_printed(rt: HostRuntime) {
    let front = b"#7 SAYBATTLE ".len();
    same(&rt, said(rt.alloc(), 8192 - front), None);
    same(
        &rt,
        said(rt.alloc(), 8193 - front),
        Some(PrintError::TooLong),
    );
}
