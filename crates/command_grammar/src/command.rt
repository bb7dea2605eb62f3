//! What a line asks for, with its arguments by name and in their order on the line; and the table of commands.

use line_words::{NameBuf, PairList, SentenceBuf, TextBuf, WordBuf, WordList};

/// Why a line could not be read as a command. A CR or LF inside the line comes before any other fault;
/// of the others the first from the left is the one that is told.
#[derive(Clone, Copy, PartialEq, Eq, Debug)]
pub enum ReadFault {
    /// The command word is not one of the protocol's. Case matters.
    UnknownCommand,
    /// The line ends before an argument that the command must have.
    MissingArgument,
    /// A word is not a number of the argument's range.
    BadNumber,
    /// A word is not a name: 1 to 20 ASCII letters, digits, `_`, `[` and `]`.
    BadName,
    /// A CR or LF stands in the line, or a tab in a word.
    BadByte,
    /// A sentence is not `key=value` with a key that is not empty and has no space.
    BadPair,
}

/// What a line asks for: one of the commands, nothing, or a line that could not be read.
#[derive(Drop)]
pub enum Command {
    /// The line has no text.
    Blank,
    /// The line is not a command.
    Unread(ReadFault),
    // Written by tools/protocol.py of protocol/commands.toml: variants.
    /// `LOGIN userName password cpu localIP {lobby name and version} [{user id}] [{flags}]`: `password` is
    /// the base64 text of the password's MD5, `cpu` from -2147483648 to 4294967295. `authorises` says
    /// that `b` is among the flags: the user decides who joins its battles.
    Login {
        user_name: WordBuf,
        password: WordBuf,
        cpu: i64,
        local_ip: WordBuf,
        lobby: SentenceBuf,
        authorises: bool,
    },
    /// `PING`
    Ping,
    /// `CHANNELS`: asks for the list of channels.
    Channels,
    /// `LEAVEBATTLE`
    LeaveBattle,
    /// `EXIT {reason}`: logs out. The reason is not kept.
    Exit,
    /// `MYSTATUS status`: `status` is a user's status word.
    MyStatus {
        status: u32,
    },
    /// `JOIN channel [key]`: the key is kept, and the lobby ignores it.
    Join {
        channel: NameBuf,
        key: Option<WordBuf>,
    },
    /// `LEAVE channel`
    Leave {
        channel: NameBuf,
    },
    /// `SAY channel {text}`
    Say {
        channel: NameBuf,
        text: TextBuf,
    },
    /// `SAYEX channel {text}`
    SayEx {
        channel: NameBuf,
        text: TextBuf,
    },
    /// `SAYPRIVATE user {text}`
    SayPrivate {
        user: NameBuf,
        text: TextBuf,
    },
    /// `OPENBATTLE type natType password port maxPlayers gameHash rank mapHash {engineName} {engineVersion}
    /// {map} {title} {gameName}`: `battle_type` is 0 or 1, `nat_type` 0 to 2, the hashes and `rank` from
    /// -2147483648 to 4294967295. The password `*` means none.
    OpenBattle {
        battle_type: u8,
        nat_type: u8,
        password: WordBuf,
        port: u16,
        max_players: u16,
        game_hash: i64,
        rank: i64,
        map_hash: i64,
        engine_name: SentenceBuf,
        engine_version: SentenceBuf,
        map: SentenceBuf,
        title: SentenceBuf,
        game_name: SentenceBuf,
    },
    /// `JOINBATTLE battleID [password] [scriptPassword]`: `battle` is 0 to 2147483647.
    JoinBattle {
        battle: u32,
        password: Option<WordBuf>,
        script_password: Option<WordBuf>,
    },
    /// `JOINBATTLEACCEPT user`
    JoinBattleAccept {
        user: NameBuf,
    },
    /// `JOINBATTLEDENY user [{reason}]`: the reason is a text, and is not there where the space before it
    /// is not.
    JoinBattleDeny {
        user: NameBuf,
        reason: Option<TextBuf>,
    },
    /// `UPDATEBATTLEINFO spectatorCount locked mapHash {map}`: `map_hash` from -2147483648 to 4294967295.
    UpdateBattleInfo {
        spectator_count: u16,
        locked: bool,
        map_hash: i64,
        map: SentenceBuf,
    },
    /// `MYBATTLESTATUS battleStatus teamColor`: `team_color` from -2147483648 to 4294967295.
    MyBattleStatus {
        battle_status: u32,
        team_color: i64,
    },
    /// `SAYBATTLE {text}`
    SayBattle {
        text: TextBuf,
    },
    /// `SAYBATTLEEX {text}`
    SayBattleEx {
        text: TextBuf,
    },
    /// `ADDBOT bot battleStatus teamColor {AI}`: `team_color` from -2147483648 to 4294967295.
    AddBot {
        bot: WordBuf,
        battle_status: u32,
        team_color: i64,
        ai: SentenceBuf,
    },
    /// `UPDATEBOT bot battleStatus teamColor`: `team_color` from -2147483648 to 4294967295.
    UpdateBot {
        bot: WordBuf,
        battle_status: u32,
        team_color: i64,
    },
    /// `REMOVEBOT bot`
    RemoveBot {
        bot: WordBuf,
    },
    /// `ADDSTARTRECT allyNo left top right bottom`: `ally_no` is 0 to 15, the others 0 to 200.
    AddStartRect {
        ally_no: u8,
        left: u8,
        top: u8,
        right: u8,
        bottom: u8,
    },
    /// `REMOVESTARTRECT allyNo`: `ally_no` is 0 to 15.
    RemoveStartRect {
        ally_no: u8,
    },
    /// `SETSCRIPTTAGS {key=value} ..`: at least one pair.
    SetScriptTags {
        pairs: PairList,
    },
    /// `REMOVESCRIPTTAGS key ..`: at least one key.
    RemoveScriptTags {
        keys: WordList,
    },
    /// `DISABLEUNITS unit ..`: at least one unit.
    DisableUnits {
        units: WordList,
    },
    /// `ENABLEUNITS unit ..`: at least one unit.
    EnableUnits {
        units: WordList,
    },
    /// `ENABLEALLUNITS`
    EnableAllUnits,
    /// `HANDICAP user value`: `value` is 0 to 100.
    Handicap {
        user: NameBuf,
        value: u8,
    },
    /// `FORCETEAMNO user number`: `number` is 0 to 15.
    ForceTeamNo {
        user: NameBuf,
        number: u8,
    },
    /// `FORCEALLYNO user number`: `number` is 0 to 15.
    ForceAllyNo {
        user: NameBuf,
        number: u8,
    },
    /// `FORCETEAMCOLOR user teamColor`: `team_color` from -2147483648 to 4294967295.
    ForceTeamColor {
        user: NameBuf,
        team_color: i64,
    },
    /// `FORCESPECTATORMODE user`
    ForceSpectatorMode {
        user: NameBuf,
    },
    /// `KICKFROMBATTLE user`
    KickFromBattle {
        user: NameBuf,
    },
    /// `RING user`
    Ring {
        user: NameBuf,
    },
    // End of what is written: variants.
}

/// The table of commands: a row for each, its command word and its fields with their kinds in the order in which
/// they stand on a line, those of the frequent ones first. The search for a command word, reading and printing are
/// written out from it. `specs/Table.antt` says the same.
///
/// It gives the rows to another macro, behind what that one is given. Behind `=>` stands what reads a row that no other
/// command has.
#[macro_export]
macro_rules! with_commands {
    ($write:ident($($given:ident),*)) => {
        $write! {
            ($($given),*)
            // Written by tools/protocol.py of protocol/commands.toml: rows.
            users {
                Ping b"PING" {}
                Exit b"EXIT" {}
                Login b"LOGIN" {
                    user_name: Word, password: Word, cpu: Wide, local_ip: Word, lobby: Sentence, authorises: LoginFlags
                } => login
                MyStatus b"MYSTATUS" { status: Natural(4294967295) } => my_status
                Channels b"CHANNELS" {}
                Join b"JOIN" { channel: Name, key: OptionalWord } => join
                Leave b"LEAVE" { channel: Name }
                Say b"SAY" { channel: Name, text: Text }
                SayEx b"SAYEX" { channel: Name, text: Text }
                SayPrivate b"SAYPRIVATE" { user: Name, text: Text }
            }
            battles {
                OpenBattle b"OPENBATTLE" {
                    battle_type: Natural(1), nat_type: Natural(2), password: Word, port: Natural(65535),
                    max_players: Natural(65535), game_hash: Wide, rank: Wide, map_hash: Wide, engine_name: Sentence,
                    engine_version: Sentence, map: Sentence, title: Sentence, game_name: Sentence
                } => open_battle
                JoinBattle b"JOINBATTLE" {
                    battle: Natural(2147483647), password: OptionalWord, script_password: OptionalWord
                } => join_battle
                JoinBattleAccept b"JOINBATTLEACCEPT" { user: Name }
                JoinBattleDeny b"JOINBATTLEDENY" { user: Name, reason: OptionalText } => join_battle_deny
                LeaveBattle b"LEAVEBATTLE" {}
                UpdateBattleInfo b"UPDATEBATTLEINFO" {
                    spectator_count: Natural(65535), locked: Flag, map_hash: Wide, map: Sentence
                } => update_battle_info
                MyBattleStatus b"MYBATTLESTATUS" {
                    battle_status: Natural(4294967295), team_color: Wide
                } => my_battle_status
                SayBattle b"SAYBATTLE" { text: Text }
                SayBattleEx b"SAYBATTLEEX" { text: Text }
            }
            rooms {
                AddBot b"ADDBOT" {
                    bot: Word, battle_status: Natural(4294967295), team_color: Wide, ai: Sentence
                } => add_bot
                UpdateBot b"UPDATEBOT" {
                    bot: Word, battle_status: Natural(4294967295), team_color: Wide
                } => update_bot
                RemoveBot b"REMOVEBOT" { bot: Word } => remove_bot
                AddStartRect b"ADDSTARTRECT" {
                    ally_no: Natural(15), left: Natural(200), top: Natural(200), right: Natural(200),
                    bottom: Natural(200)
                } => add_start_rect
                RemoveStartRect b"REMOVESTARTRECT" { ally_no: Natural(15) } => remove_start_rect
                SetScriptTags b"SETSCRIPTTAGS" { pairs: Pairs } => set_script_tags
                RemoveScriptTags b"REMOVESCRIPTTAGS" { keys: Words }
                DisableUnits b"DISABLEUNITS" { units: Words }
                EnableUnits b"ENABLEUNITS" { units: Words }
                EnableAllUnits b"ENABLEALLUNITS" {}
            }
            hosts {
                Handicap b"HANDICAP" { user: Name, value: Natural(100) }
                ForceTeamNo b"FORCETEAMNO" { user: Name, number: Natural(15) }
                ForceAllyNo b"FORCEALLYNO" { user: Name, number: Natural(15) }
                ForceTeamColor b"FORCETEAMCOLOR" { user: Name, team_color: Wide } => force_team_color
                ForceSpectatorMode b"FORCESPECTATORMODE" { user: Name }
                KickFromBattle b"KICKFROMBATTLE" { user: Name }
                Ring b"RING" { user: Name }
            }
            // End of what is written: rows.
        }
    };
}

impl Command {
    /// Lets the command go.
    pub fn discard(self) {
        drop(self);
    }
}

/// A command with the message id of its line.
#[derive(Drop)]
pub struct Request {
    /// The message id: 0 to 2147483647. None where the line has none.
    pub id: Option<u32>,
    pub command: Command,
}

impl Request {
    /// Lets the request go, as `Command::discard` does.
    pub fn discard(self) {
        drop(self);
    }
}
