//! The lobby's replies as values: the lines that it sends, with each field lent or owned.
//!
//! A [`Reply`] is one line to a client, made of its fields in their order.
//!
//! The reply of the test prints as `#7 SERVERMSG Log in first`.
//!
//! For example (`leaf_tests/src/replies.rt`):
//!
//! ```rust
//! let refusal = line_words::Text::lend(b"Log in first");
//! let reply = Reply::ServerMsg {
//!     text: Text(HeldText::Fixed(&refusal)),
//! };
//! print(&reply, Some(7), out)
//! ```
//!
//! A line is an optional message id (`#7 `), the command word, the arguments, and LF. Each word stands behind one
//! space. The first sentence or the text stands behind one space too, and further sentences behind tabs. The crate
//! `reply_printer` prints the lines, and `reply_grammar` reads them back.
#![tactic(auto)]

mod command_word;
mod held;
mod kept;
mod numbers;
mod opened_battle;
mod owned;

pub use command_word::CommandWord;
pub use held::{Held, HeldNames, HeldOpened, HeldPairs, HeldText, HeldWord, HeldWords};
pub use kept::{Country, Name, Names, NextSentence, Opened, Pairs, Sentence, Text, Word, Words};
pub use numbers::{BattleNumber, UpTo, Wide};
pub use opened_battle::OpenedBattle;

/// A line to a client, its fields the arguments in their order (docs/PROTOCOL.md, section 4).
///
/// Names, words, sentences and texts keep the byte rules of their types. The other ranges are
/// those of the protocol: a battle's number is 1 to 2147483647 (`battleID`), an ally team's 0 to
/// 15 (`allyNo`), a side of a start rectangle 0 to 200, `server_mode` and `battle_type` (`type`)
/// 0 to 1, `nat_type` 0 to 2, and colours, hashes, ranks and `cpu` -2147483648 to 4294967295. The type
/// does not hold these, and printing does not ask for them.
pub enum Reply<'a> {
    // Written by tools/protocol.py of protocol/replies.toml: variants.
    /// `TASSERVER`. The greeting: the versions spoken, the UDP port for address translation and the server's mode.
    TasServer {
        protocol_version: Word<'a>,
        spring_version: Word<'a>,
        udp_port: u16,
        server_mode: UpTo<1>,
    },
    /// `ACCEPTED`. The login was accepted under this name.
    Accepted {
        user: Name<'a>,
    },
    /// `DENIED`. The login was refused, and why.
    Denied {
        text: Text<'a>,
    },
    /// `MOTD`. A line of the message of the day.
    Motd {
        text: Text<'a>,
    },
    /// `SERVERMSG`. A message of the server, most often a refusal.
    ServerMsg {
        text: Text<'a>,
    },
    /// `ADDUSER`. A user logged in: country, processor (`cpu`) and account number (`accountID`).
    AddUser {
        user: Name<'a>,
        country: Country<'a>,
        cpu: Wide,
        account: u32,
    },
    /// `REMOVEUSER`. A user logged out.
    RemoveUser {
        user: Name<'a>,
    },
    /// `CLIENTSTATUS`. The status word of a user.
    ClientStatus {
        user: Name<'a>,
        status: u32,
    },
    /// `LOGININFOEND`. All that a login shows has been sent.
    LoginInfoEnd,
    /// `PONG`. The answer to PING.
    Pong,
    /// `JOIN`. The recipient is now in this channel.
    Join {
        channel: Name<'a>,
    },
    /// `CLIENTS`. Users of a channel, 1 to 32 in a line.
    Clients {
        channel: Name<'a>,
        names: Names<'a>,
    },
    /// `JOINED`. A user joined a channel.
    Joined {
        channel: Name<'a>,
        user: Name<'a>,
    },
    /// `LEFT`. A user left a channel.
    Left {
        channel: Name<'a>,
        user: Name<'a>,
    },
    /// `JOINFAILED`. A channel was not joined, and why.
    JoinFailed {
        channel: Name<'a>,
        reason: Text<'a>,
    },
    /// `SAID`. A user said this in a channel.
    Said {
        channel: Name<'a>,
        user: Name<'a>,
        text: Text<'a>,
    },
    /// `SAIDEX`. The same in the third person.
    SaidEx {
        channel: Name<'a>,
        user: Name<'a>,
        text: Text<'a>,
    },
    /// `SAYPRIVATE`. What the recipient said to a user alone.
    SayPrivate {
        user: Name<'a>,
        text: Text<'a>,
    },
    /// `SAIDPRIVATE`. What a user said to the recipient alone.
    SaidPrivate {
        user: Name<'a>,
        text: Text<'a>,
    },
    /// `CHANNEL`. A channel and how many users are in it (`userCount`).
    Channel {
        channel: Name<'a>,
        user_count: usize,
    },
    /// `ENDOFCHANNELS`. All channels have been sent.
    EndOfChannels,
    /// `OPENBATTLE`. The recipient opened this battle.
    OpenBattle {
        battle: BattleNumber,
    },
    /// `OPENBATTLEFAILED`. No battle was opened, and why.
    OpenBattleFailed {
        text: Text<'a>,
    },
    /// `BATTLEOPENED`. A battle and what all are told of it.
    BattleOpened {
        battle: BattleNumber,
        opened: Opened<'a>,
    },
    /// `BATTLECLOSED`. A battle was closed.
    BattleClosed {
        battle: BattleNumber,
    },
    /// `JOINBATTLE`. The recipient is now in this battle, whose game has this hash.
    JoinBattle {
        battle: BattleNumber,
        game_hash: Wide,
    },
    /// `JOINBATTLEFAILED`. No battle was joined, and why.
    JoinBattleFailed {
        text: Text<'a>,
    },
    /// `JOINEDBATTLE`. A user joined a battle. Its founder is told the script password, if one was given.
    JoinedBattle {
        battle: BattleNumber,
        user: Name<'a>,
        script_password: Option<Word<'a>>,
    },
    /// `LEFTBATTLE`. A user left a battle.
    LeftBattle {
        battle: BattleNumber,
        user: Name<'a>,
    },
    /// `UPDATEBATTLEINFO`. What changes of a battle: spectators, lock and map.
    UpdateBattleInfo {
        battle: BattleNumber,
        spectator_count: u16,
        locked: bool,
        map_hash: Wide,
        map: Sentence<'a>,
    },
    /// `REQUESTBATTLESTATUS`. The recipient is asked for its status in the battle.
    RequestBattleStatus,
    /// `CLIENTBATTLESTATUS`. The battle status and team colour of a user in the recipient's battle.
    ClientBattleStatus {
        user: Name<'a>,
        battle_status: u32,
        team_color: Wide,
    },
    /// `SAIDBATTLE`. A user said this in the recipient's battle.
    SaidBattle {
        user: Name<'a>,
        text: Text<'a>,
    },
    /// `SAIDBATTLEEX`. The same in the third person.
    SaidBattleEx {
        user: Name<'a>,
        text: Text<'a>,
    },
    /// `ADDBOT`. A bot joined the recipient's battle, under this owner and played by this AI.
    AddBot {
        battle: BattleNumber,
        bot: Word<'a>,
        owner: Name<'a>,
        battle_status: u32,
        team_color: Wide,
        ai: Sentence<'a>,
    },
    /// `UPDATEBOT`. The battle status and team colour of a bot.
    UpdateBot {
        battle: BattleNumber,
        bot: Word<'a>,
        battle_status: u32,
        team_color: Wide,
    },
    /// `REMOVEBOT`. A bot left the recipient's battle.
    RemoveBot {
        battle: BattleNumber,
        bot: Word<'a>,
    },
    /// `ADDSTARTRECT`. The start rectangle of an ally team (`allyNo`), in two-hundredths of the map.
    AddStartRect {
        ally_no: UpTo<15>,
        left: UpTo<200>,
        top: UpTo<200>,
        right: UpTo<200>,
        bottom: UpTo<200>,
    },
    /// `REMOVESTARTRECT`. An ally team has no start rectangle any more.
    RemoveStartRect {
        ally_no: UpTo<15>,
    },
    /// `SETSCRIPTTAGS`. Script tags that are set, at least one.
    SetScriptTags {
        pairs: Pairs<'a>,
    },
    /// `REMOVESCRIPTTAGS`. Keys of script tags that are gone, at least one.
    RemoveScriptTags {
        keys: Words<'a>,
    },
    /// `FORCEQUITBATTLE`. The recipient was kicked from its battle.
    ForceQuitBattle,
    /// `RING`. A user rings the recipient.
    Ring {
        user: Name<'a>,
    },
    /// `JOINBATTLEREQUEST`. A user, at this address, asks to join the recipient's battle.
    JoinBattleRequest {
        user: Name<'a>,
        ip: Word<'a>,
    },
    /// `DISABLEUNITS`. Units that are disabled now, at least one.
    DisableUnits {
        units: Words<'a>,
    },
    /// `ENABLEUNITS`. Units that are enabled again, at least one.
    EnableUnits {
        units: Words<'a>,
    },
    /// `ENABLEALLUNITS`. No unit is disabled any more.
    EnableAllUnits,
    // End of what is written: variants.
}

impl Drop for Reply<'_> {
    /// Who lets a reply go calls this, and need not know what the replies are.
    #[inline(always)]
    #[rattlefmt::skip]
    fn drop(self) {
        match self {
            // Written by tools/protocol.py of protocol/replies.toml: drop.
            Reply::TasServer { protocol_version: _, spring_version: _, udp_port: _, server_mode: _ }
            | Reply::Accepted { user: _ } | Reply::Denied { text: _ } | Reply::Motd { text: _ }
            | Reply::ServerMsg { text: _ } | Reply::AddUser { user: _, country: _, cpu: _, account: _ }
            | Reply::RemoveUser { user: _ } | Reply::ClientStatus { user: _, status: _ } | Reply::LoginInfoEnd
            | Reply::Pong | Reply::Join { channel: _ } | Reply::Clients { channel: _, names: _ }
            | Reply::Joined { channel: _, user: _ } | Reply::Left { channel: _, user: _ }
            | Reply::JoinFailed { channel: _, reason: _ } | Reply::Said { channel: _, user: _, text: _ }
            | Reply::SaidEx { channel: _, user: _, text: _ } | Reply::SayPrivate { user: _, text: _ }
            | Reply::SaidPrivate { user: _, text: _ } | Reply::Channel { channel: _, user_count: _ }
            | Reply::EndOfChannels | Reply::OpenBattle { battle: _ } | Reply::OpenBattleFailed { text: _ }
            | Reply::BattleOpened { battle: _, opened: _ } | Reply::BattleClosed { battle: _ }
            | Reply::JoinBattle { battle: _, game_hash: _ } | Reply::JoinBattleFailed { text: _ }
            | Reply::JoinedBattle { battle: _, user: _, script_password: _ }
            | Reply::LeftBattle { battle: _, user: _ }
            | Reply::UpdateBattleInfo { battle: _, spectator_count: _, locked: _, map_hash: _, map: _ }
            | Reply::RequestBattleStatus
            | Reply::ClientBattleStatus { user: _, battle_status: _, team_color: _ }
            | Reply::SaidBattle { user: _, text: _ } | Reply::SaidBattleEx { user: _, text: _ }
            | Reply::AddBot { battle: _, bot: _, owner: _, battle_status: _, team_color: _, ai: _ }
            | Reply::UpdateBot { battle: _, bot: _, battle_status: _, team_color: _ }
            | Reply::RemoveBot { battle: _, bot: _ }
            | Reply::AddStartRect { ally_no: _, left: _, top: _, right: _, bottom: _ }
            | Reply::RemoveStartRect { ally_no: _ } | Reply::SetScriptTags { pairs: _ }
            | Reply::RemoveScriptTags { keys: _ } | Reply::ForceQuitBattle | Reply::Ring { user: _ }
            | Reply::JoinBattleRequest { user: _, ip: _ } | Reply::DisableUnits { units: _ }
            | Reply::EnableUnits { units: _ } | Reply::EnableAllUnits => {}
            // End of what is written: drop.
        }
    }
}
