//! Why a command stops before anything is told: docs/PROTOCOL.md, "The texts".

ghost use Rattle.std.specs.Prelude.{◌≡◌, IfErr, IfOk, None, OnOk, Some, false, true};
ghost use Rattle.battle_rules.specs.declared.refusal.Stop.TheVariants.{Refused};
ghost use Rattle.lobby_model.specs.Texts.{fault_text};
ghost use Rattle.battle_rules.specs.Answers.{refusal_text, reply_saying};

use command_grammar::ReadFault;
use line_words::{NameBuf, Text};
use reply_kinds::{Held, HeldText, Name, Reply};
use std::alloc::AllocError;

/// Why a command was refused.
#[derive(Drop)]
pub enum Refusal {
    /// The line could not be read.
    Fault(ReadFault),
    /// The command is for those who are logged in.
    LogInFirst,
    /// The client is logged in.
    AlreadyIn,
    /// There is no such account, or its password is another.
    InvalidLogin,
    /// A user of that name is logged in, at another client.
    UserIsIn,
    /// The user who joins is in that channel.
    AlreadyInChannel(NameBuf),
    /// The user is not in that channel.
    NotInChannel,
    /// Nobody of that name is logged in.
    NoSuchUser,
    /// The user who opens a battle is in one.
    OpensInBattle,
    /// The user who opens a battle asks to join one.
    OpensAsking,
    /// The last battle number, 2147483647, was given.
    NoNumberLeft,
    /// The user who joins a battle is in one.
    JoinsInBattle,
    /// The user who joins a battle asks to join one.
    JoinsAsking,
    /// There is no battle of that number.
    NoSuchBattle,
    /// Nobody may join the battle now.
    BattleIsLocked,
    /// The battle has a password, and it is another.
    WrongPassword,
    /// The user is in no battle.
    NotInBattle,
    /// The user is in a battle that another founded.
    NotTheFounder,
    /// Nobody of that name asks to join the battle.
    NoSuchRequest,
    /// Nobody of that name is in the battle.
    NoSuchMember,
    /// The founder is the one to be kicked.
    CannotKickYourself,
    /// There is no bot of that name in the battle.
    NoSuchBot,
    /// The user neither owns the bot nor founded the battle.
    NotYourBot,
    /// There is a bot of that name in the battle.
    BotNameTaken,
    /// There are 64 bots in the battle.
    TooManyBots,
    /// There would be more than 512 script tags in the battle.
    TooManyTags,
    /// There would be more than 1,024 disabled units in the battle.
    TooManyUnits,
}

impl Refusal {
    /// Why, in words.
    pub fn text(&self) -> Text<'static>
        ensures { result ≡ refusal_text self.now }
    {
        match self {
            Refusal::Fault(fault) => fault_text(*fault),
            Refusal::LogInFirst => Text::lend(b"Log in first"),
            Refusal::AlreadyIn => Text::lend(b"Already logged in"),
            Refusal::InvalidLogin => Text::lend(b"Invalid username or password"),
            Refusal::UserIsIn => Text::lend(b"User is already logged in"),
            Refusal::AlreadyInChannel(_) => Text::lend(b"Already in the channel"),
            Refusal::NotInChannel => Text::lend(b"You are not in that channel"),
            Refusal::NoSuchUser => Text::lend(b"No such user"),
            Refusal::OpensInBattle | Refusal::JoinsInBattle => Text::lend(b"Already in a battle"),
            Refusal::OpensAsking | Refusal::JoinsAsking => Text::lend(b"Already asking to join"),
            Refusal::NoNumberLeft => Text::lend(b"No battle number is left"),
            Refusal::NoSuchBattle => Text::lend(b"No such battle"),
            Refusal::BattleIsLocked => Text::lend(b"The battle is locked"),
            Refusal::WrongPassword => Text::lend(b"Wrong password"),
            Refusal::NotInBattle => Text::lend(b"You are not in a battle"),
            Refusal::NotTheFounder => Text::lend(b"You are not the founder"),
            Refusal::NoSuchRequest => Text::lend(b"No such join request"),
            Refusal::NoSuchMember => Text::lend(b"No such member"),
            Refusal::CannotKickYourself => Text::lend(b"You cannot kick yourself"),
            Refusal::NoSuchBot => Text::lend(b"No such bot"),
            Refusal::NotYourBot => Text::lend(b"That bot is not yours"),
            Refusal::BotNameTaken => Text::lend(b"That bot name is taken"),
            Refusal::TooManyBots => Text::lend(b"Too many bots"),
            Refusal::TooManyTags => Text::lend(b"Too many tags"),
            Refusal::TooManyUnits => Text::lend(b"Too many units"),
        }
    }

    /// The line that says these words.
    pub fn line<'a>(&'a self, text: &'a Text<'a>) -> Reply<'a>
        ensures { result ≡ reply_saying self.now text.now }
    {
        let text = reply_kinds::Text(HeldText::Fixed(text));
        match self {
            Refusal::AlreadyIn | Refusal::InvalidLogin | Refusal::UserIsIn => {
                Reply::Denied { text }
            }
            Refusal::AlreadyInChannel(channel) => Reply::JoinFailed {
                channel: Name(Held::Lent(channel)),
                reason: text,
            },
            Refusal::OpensInBattle | Refusal::OpensAsking | Refusal::NoNumberLeft => {
                Reply::OpenBattleFailed { text }
            }
            Refusal::JoinsInBattle
            | Refusal::JoinsAsking
            | Refusal::NoSuchBattle
            | Refusal::BattleIsLocked
            | Refusal::WrongPassword => Reply::JoinBattleFailed { text },
            Refusal::Fault(_)
            | Refusal::LogInFirst
            | Refusal::NotInChannel
            | Refusal::NoSuchUser
            | Refusal::NotInBattle
            | Refusal::NotTheFounder
            | Refusal::NoSuchRequest
            | Refusal::NoSuchMember
            | Refusal::CannotKickYourself
            | Refusal::NoSuchBot
            | Refusal::NotYourBot
            | Refusal::BotNameTaken
            | Refusal::TooManyBots
            | Refusal::TooManyTags
            | Refusal::TooManyUnits => Reply::ServerMsg { text },
        }
    }
}

/// Why a line could not be read, in words.
fn fault_text(fault: ReadFault) -> Text<'static>
    ensures { result ≡ fault_text fault }
{
    match fault {
        ReadFault::UnknownCommand => Text::lend(b"Unknown command"),
        ReadFault::MissingArgument => Text::lend(b"Missing argument"),
        ReadFault::BadNumber => Text::lend(b"Bad number"),
        ReadFault::BadName => Text::lend(b"Bad name"),
        ReadFault::BadByte => Text::lend(b"Bad byte in line"),
        ReadFault::BadPair => Text::lend(b"Bad key or value"),
    }
}

/// Why a command stopped.
#[derive(Drop)]
pub enum Stop {
    /// Its issuer is told why.
    Refused(Refusal),
    /// Memory was refused.
    Memory,
}

impl From<AllocError> for Stop {
    ghost use Rattle.std.specs.Prelude.{◌≡◌};
    ghost use Rattle.battle_rules.specs.declared.refusal.Stop.TheVariants.{Memory};

    ghost from_gives = { λ _ e. e ≡ Memory };

    fn from(_: AllocError) -> Stop {
        Stop::Memory
    }
}

/// The thing that was found, or the refusal of one who asks for it in vain.
pub fn or_refuse<T>(found: Option<T>, refusal: Refusal) -> Result<T, Stop>
    ensures ok { IfOk result (λ thing. found ≡ Some thing) }
    ensures err { IfErr result (λ why. (why ≡ Refused refusal) × (found ≡ None)) }
{
    match found {
        Some(thing) => Ok(thing),
        None => Err(Stop::Refused(refusal)),
    }
}

/// Refuses where a check fails.
pub fn refuse_if(failing: bool, refusal: Refusal) -> Result<(), Stop>
    ensures ok { OnOk result (failing ≡ false) }
    ensures err { IfErr result (λ why. (why ≡ Refused refusal) × (failing ≡ true)) }
{
    if failing {
        return Err(Stop::Refused(refusal));
    }
    Ok(())
}
