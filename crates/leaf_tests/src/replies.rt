//! A line for each reply, read and printed again, and lines that no reply prints.

use crate::verdict::{same, same_for};
use line_words::{NameBuf, TextBuf, Word};
use reply_grammar::{
    Country, Held, HeldNames, HeldText, HeldWord, Name, Names, Reply, Text, Wide, print, print_id,
    read_reply,
};
use std::alloc::{AllocError, Global};

// Written by tools/protocol.py of protocol/replies.toml: good lines.
static LINES: [&[u8]; 59] = [
    b"TASSERVER 0.38 * 8201 0",
    b"#4 ACCEPTED Bert",
    b"DENIED Invalid username or password",
    b"MOTD Welcome",
    b"MOTD ",
    b"SERVERMSG Log in first",
    b"#2147483647 SERVERMSG a tab\tand two  spaces ",
    b"ADDUSER Bert ?? 2400 2",
    b"ADDUSER [x]_9 SE -2147483648 4294967295",
    b"REMOVEUSER Anna",
    b"CLIENTSTATUS Bert 12",
    b"LOGININFOEND",
    b"PONG",
    b"#7 PONG",
    b"#0 PONG",
    b"JOIN main",
    b"CLIENTS big u01 u02",
    b"CLIENTS big u01 u02 u03 u04 u05 u06 u07 u08 u09 u10 u11 u12 u13 u14 u15 u16 u17 u18 u19 u20 u21 u22 u23 u24 u25 u26 u27 u28 u29 u30 u31 u32",
    b"JOINED main Bert",
    b"LEFT main Anna",
    b"JOINFAILED main Already in the channel",
    b"SAID main Anna \xC3\xA4\xFF\x00",
    b"SAIDEX main Anna waves",
    b"#9 SAYPRIVATE Bert hi  there",
    b"SAIDPRIVATE Anna  hi",
    b"CHANNEL big 1",
    b"ENDOFCHANNELS",
    b"OPENBATTLE 1",
    b"OPENBATTLEFAILED Already in a battle",
    b"BATTLEOPENED 1 0 0 Anna 10.0.0.1 8452 8 0 0 123 Spring\t104.0\tComet Catcher\tAnna's game\tBA 9.46",
    b"BATTLEOPENED 2147483647 1 2 Anna 10.0.0.1 65535 0 1 -1 4294967295 \t\t\t\t",
    b"BATTLECLOSED 1",
    b"JOINBATTLE 1 -1",
    b"JOINBATTLEFAILED Wrong password",
    b"JOINEDBATTLE 1 Bert",
    b"JOINEDBATTLE 1 Bert pw9",
    b"LEFTBATTLE 1 Bert",
    b"JOINBATTLEREQUEST Bert 10.0.0.2",
    b"UPDATEBATTLEINFO 1 0 1 123 Comet Catcher",
    b"REQUESTBATTLESTATUS",
    b"CLIENTBATTLESTATUS Anna 264345598 -1",
    b"SAIDBATTLE Anna go",
    b"SAIDBATTLEEX Anna ",
    b"ADDBOT 1 Robo Anna 1024 255 KAIK",
    b"UPDATEBOT 1 Robo 1024 255",
    b"REMOVEBOT 1 Rex",
    b"ADDSTARTRECT 1 0 0 200 60",
    b"REMOVESTARTRECT 15",
    b"SETSCRIPTTAGS k1=2",
    b"SETSCRIPTTAGS a=1\tb=",
    b"SETSCRIPTTAGS game/a=b=c d",
    b"REMOVESCRIPTTAGS k2 k1",
    b"#5 DISABLEUNITS armcom",
    b"DISABLEUNITS armcom corcom armflash",
    b"ENABLEUNITS corcom armcom",
    b"ENABLEALLUNITS",
    b"#5 ENABLEALLUNITS",
    b"FORCEQUITBATTLE",
    b"RING Anna",
];
// End of what is written: good lines.

// Written by tools/protocol.py of protocol/replies.toml: bad lines.
static BAD_LINES: [&[u8]; 70] = [
    b"TASSERVER 0.38 * 65536 0",
    b"TASSERVER 0.38 * 8201 2",
    b"ACCEPTED",
    b"ACCEPTED ",
    b"ACCEPTED  Anna",
    b"ACCEPTED Anna ",
    b"ACCEPTED a-b",
    b"ACCEPTED A.na",
    b"ACCEPTED u23456789012345678901",
    b"MOTD",
    b"MOTD a\rb",
    b"ADDUSER Bert ?? -2147483649 2",
    b"ADDUSER Bert ?? +1 2",
    b"ADDUSER Bert S\tE 0 2",
    b"CLIENTSTATUS Bert",
    b"CLIENTSTATUS Bert ",
    b"CLIENTSTATUS  Bert 12",
    b"CLIENTSTATUS Bert 12 ",
    b"CLIENTSTATUS Bert 12 3",
    b"CLIENTSTATUS Bert 012",
    b"CLIENTSTATUS Bert -0",
    b"CLIENTSTATUS Bert -1",
    b"CLIENTSTATUS Bert 4294967296",
    b"CLIENTSTATUS Bert 99999999999",
    b"CLIENTSTATUS Bert 1x",
    b"PONG ",
    b"PONG x",
    b"CLIENTS big",
    b"CLIENTS big u01  u02",
    b"CLIENTS big u01 u02 u03 u04 u05 u06 u07 u08 u09 u10 u11 u12 u13 u14 u15 u16 u17 u18 u19 u20 u21 u22 u23 u24 u25 u26 u27 u28 u29 u30 u31 u32 u33",
    b"SAID main Anna",
    b"CHANNEL main 4294967296",
    b"CHANNEL main -0",
    b"OPENBATTLE 0",
    b"OPENBATTLE 01",
    b"OPENBATTLE 2147483648",
    b"BATTLEOPENED 1 0 3 Anna 10.0.0.1 8452 8 0 0 123 a\tb\tc\td\te",
    b"BATTLEOPENED 1 0 0 Anna 10.0.0.1 8452 8 0 0 123 a\tb\tc\td",
    b"BATTLEOPENED 1 0 0 Anna 10.0.0.1 8452 8 0 0 123 a\tb\tc\td\te\tf",
    b"BATTLECLOSED",
    b"BATTLECLOSED 0",
    b"BATTLECLOSED 2147483648",
    b"BATTLECLOSED 07",
    b"BATTLECLOSED -7",
    b"BATTLECLOSED +7",
    b"JOINBATTLE 1 4294967296",
    b"JOINBATTLE 1 -2147483649",
    b"JOINEDBATTLE 1 Bert ",
    b"JOINEDBATTLE 1 Bert pw9 x",
    b"JOINBATTLEREQUEST Bert",
    b"JOINBATTLEREQUEST Bert 10.0.0.2 x",
    b"JOINBATTLEREQUEST a-b 10.0.0.2",
    b"UPDATEBATTLEINFO 1 0 2 123 Comet Catcher",
    b"UPDATEBATTLEINFO 1 65536 1 123 x",
    b"UPDATEBATTLEINFO 1 0 1 123 a\tb",
    b"ADDSTARTRECT 16 0 0 200 60",
    b"ADDSTARTRECT 1 0 0 201 60",
    b"ADDSTARTRECT 1 0 0 200 201",
    b"SETSCRIPTTAGS",
    b"SETSCRIPTTAGS ",
    b"SETSCRIPTTAGS a",
    b"SETSCRIPTTAGS =1",
    b"SETSCRIPTTAGS a b=1",
    b"SETSCRIPTTAGS a=1\t",
    b"DISABLEUNITS",
    b"DISABLEUNITS ",
    b"DISABLEUNITS armcom  corcom",
    b"ENABLEUNITS armcom ",
    b"ENABLEUNITS arm\tcom",
    b"ENABLEALLUNITS ",
];
// End of what is written: bad lines.

/// Lines without the word of a reply, with a wrong id, or with an end in them.
static REFUSED: [&[u8]; 14] = [
    b"",
    b" PONG",
    b"pong",
    b"PONG\r",
    b"PINGPONG",
    b"#7",
    b"#7PONG",
    b"#7  PONG",
    b"# PONG",
    b"#07 PONG",
    b"#-1 PONG",
    b"#2147483648 PONG",
    b"#7 #8 PONG",
    b"MOTD a\nb",
];

#[test]
fn each_reply_is_printed_as_it_was_read(rt: HostRuntime) {
    for line in &LINES {
        same_for(&rt, line, prints_again(rt.alloc(), line), Ok(Some(true)));
    }
}

#[test]
fn what_no_reply_prints_is_refused(rt: HostRuntime) {
    for line in &BAD_LINES {
        same_for(&rt, line, prints_again(rt.alloc(), line), Ok(None));
    }
    for line in &REFUSED {
        same_for(&rt, line, prints_again(rt.alloc(), line), Ok(None));
    }
}

#[test]
fn a_line_stands_behind_what_was_there(rt: HostRuntime) {
    let mut out = Vec::new(rt.alloc());
    same(&rt, print(&Reply::Pong, None, &mut out), Ok(()));
    same(&rt, print(&Reply::Pong, Some(7), &mut out), Ok(()));
    same(&rt, out.as_slice(), b"PONG\n#7 PONG\n".as_slice());
}

#[test]
fn a_lent_reply_prints_as_an_owned_one(rt: HostRuntime) {
    let mut out = Vec::new(rt.alloc());
    same(&rt, print_refusal(&mut out), Ok(()));
    same(&rt, print_user(rt.alloc(), &mut out), Ok(()));
    same(&rt, print_private(rt.alloc(), &mut out), Ok(()));
    same(
        &rt,
        out.as_slice(),
        b"#7 SERVERMSG Log in first\nADDUSER Bert ?? -1 4294967295\n#9 SAYPRIVATE Bert hi  there\n".as_slice(),
    );
}

/// A fixed text.
fn print_refusal(out: &mut Vec<u8>) -> Result<(), AllocError> {
    let refusal = line_words::Text::lend(b"Log in first");
    let reply = Reply::ServerMsg {
        text: Text(HeldText::Fixed(&refusal)),
    };
    print(&reply, Some(7), out)
}

/// Numbers at their ends.
fn print_user(alloc: Global, out: &mut Vec<u8>) -> Result<(), AllocError> {
    let user = NameBuf::copy_of(alloc, b"Bert")?;
    let Some(country) = Word::of(b"??") else {
        return Ok(());
    };
    let reply = Reply::AddUser {
        user: Name(Held::Lent(&user)),
        country: Country(HeldWord::Lent(country)),
        cpu: Wide(-1),
        account: 4294967295,
    };
    print(&reply, None, out)
}

/// What a user wrote.
fn print_private(alloc: Global, out: &mut Vec<u8>) -> Result<(), AllocError> {
    let user = NameBuf::copy_of(alloc, b"Bert")?;
    let text = TextBuf::copy_of(alloc, b"hi  there")?;
    let reply = Reply::SayPrivate {
        user: Name(Held::Lent(&user)),
        text: Text(HeldText::Lent(&text)),
    };
    print(&reply, Some(9), out)
}

#[test]
fn lent_names_may_have_one_more(rt: HostRuntime) {
    let mut out = Vec::new(rt.alloc());
    same(&rt, print_names(rt.alloc(), &mut out), Ok(()));
    same(
        &rt,
        out.as_slice(),
        b"#3 CLIENTS main u01 u02\nCLIENTS main u01 u02 Bert\n".as_slice(),
    );
}

fn print_names(alloc: Global, out: &mut Vec<u8>) -> Result<(), AllocError> {
    let last = NameBuf::copy_of(alloc, b"Bert")?;
    let names = [
        NameBuf::copy_of(alloc, b"u01")?,
        NameBuf::copy_of(alloc, b"u02")?,
    ];
    print_clients(alloc, HeldNames::Lent(&names), Some(3), out)?;
    print_clients(alloc, HeldNames::LentAndLast(&names, &last), None, out)
}

fn print_clients(
    alloc: Global,
    names: HeldNames<'_>,
    id: Option<u32>,
    out: &mut Vec<u8>,
) -> Result<(), AllocError> {
    let main = NameBuf::copy_of(alloc, b"main")?;
    let reply = Reply::Clients {
        channel: Name(Held::Lent(&main)),
        names: Names(names),
    };
    print(&reply, id, out)
}

#[test]
fn a_line_behind_an_id_is_the_line_under_it(rt: HostRuntime) {
    let mut out = Vec::new(rt.alloc());
    same(&rt, print_id(Some(7), &mut out), Ok(()));
    same(&rt, print(&Reply::Pong, None, &mut out), Ok(()));
    same(&rt, print_id(None, &mut out), Ok(()));
    same(&rt, print(&Reply::EndOfChannels, None, &mut out), Ok(()));
    same(&rt, out.as_slice(), b"#7 PONG\nENDOFCHANNELS\n".as_slice());
}

/// Whether the reply that was read prints this line, with its end; nothing where there is no reply.
fn prints_again(alloc: Global, line: &[u8]) -> Result<Option<bool>, AllocError> {
    match read_reply(alloc, line) {
        Ok(Some((id, reply))) => { Ok(Some(prints(alloc, &reply, id, line))) }
        Ok(None) => Ok(None),
        Err(refusal) => Err(refusal),
    }
}

fn prints(alloc: Global, reply: &Reply, id: Option<u32>, line: &[u8]) -> bool {
    let mut out = Vec::new(alloc);
    print(reply, id, &mut out).is_ok() && out.as_slice().strip_suffix(b"\n") == Some(line)
}
