//! What each command comes to: it is refused, or it is told and changes something. The commands are those
//! of docs/PROTOCOL.md, "The commands", and the order of checks that of "The texts".

ghost use Rattle.std.specs.Prelude.{◌≡◌, [], ◌∷◌, OnOk, IfOk, IsTrue, Some, None, true, option_copied};
ghost use Rattle.command_grammar.specs.Kinds.{keeps_kinds};
ghost use Rattle.lobby_model.specs.State.{State, hears, name_of};
ghost use Rattle.lobby_model.specs.Outcome.{tell, issuer};
ghost use Rattle.lobby_model.specs.Commands.{answer};
ghost use Rattle.lobby_post.specs.Posted.{begun, Told};
ghost use Rattle.battle_rules.specs.Answers.{Answers, Obeyed, refusal_reply};

mod channels;
mod guards;
mod session;

use battle_room::Rect;
use battle_rules::battles::Opening;
use battle_rules::rooms::{self, Force};
use battle_rules::{Issuer, Refusal, Stop, battles, joining};
use command_grammar::Command;
use line_words::NameBuf;
use lobby_maps::{Change, Maps};
use lobby_post::Post;
use reply_kinds::{Held, HeldText, Name, Reply, Text};
pub use session::{close, login_answer};
use std::alloc::AllocError;

/// What a command of a client that hears comes to, told under the id of its request; a refusal is
/// told too. `me` is the name under which the client is logged in, if it is. Fails only where memory
/// is refused: nothing was changed then, and what was told of it goes as the next event begins.
pub fn decide(
    maps: &Maps,
    client: u64,
    me: Option<&NameBuf>,
    id: Option<u32>,
    command: &Command,
    post: &mut Post,
) -> Result<Change, AllocError>
    requires hears { hears maps.now.plain client ≡ true }
    requires me { option_copied me ≡ name_of maps.now.plain client }
    requires kinds { IsTrue (keeps_kinds command.now) }
    ensures { IfOk result (λ change. Obeyed maps.now.plain client (begun client id) post.new change
        (answer maps.now.plain client (name_of maps.now.plain client) command.now)) }
{
    post.begin(client, id);
    match answer(maps, client, me, command, post) {
        Ok(change) => Ok(change),
        Err(Stop::Refused(refusal)) => {
            refuse(refusal, post)?;
            Ok(Change::Nothing)
        }
        Err(Stop::Memory) => Err(AllocError),
    }
}

/// What a command comes to.
fn answer(
    maps: &Maps,
    client: u64,
    me: Option<&NameBuf>,
    command: &Command,
    post: &mut Post,
) -> Result<Change, Stop>
    requires hears { hears maps.now.plain client ≡ true }
    requires me { option_copied me ≡ name_of maps.now.plain client }
    requires kinds { IsTrue (keeps_kinds command.now) }
    requires issuer { post.old.issuer ≡ client }
    ensures { Answers maps.now.plain client post.old post.new
        (answer maps.now.plain client (name_of maps.now.plain client) command.now) result }
{
    match me {
        Some(me) => answer_user(&Issuer { maps, client, me }, command, post),
        None => answer_stranger(maps, client, command, post),
    }
}

/// What a command of a client at which nobody is logged in comes to.
fn answer_stranger(
    maps: &Maps,
    client: u64,
    command: &Command,
    post: &mut Post,
) -> Result<Change, Stop>
    requires hears { hears maps.now.plain client ≡ true }
    requires nobody { name_of maps.now.plain client ≡ None }
    ensures { Answers maps.now.plain client post.old post.new (answer maps.now.plain client None command.now) result }
{
    match command {
        Command::Blank => Ok(Change::Nothing),
        Command::Unread(fault) => Err(Stop::Refused(Refusal::Fault(*fault))),
        Command::Ping => session::ping(maps, client, post),
        Command::Exit => Ok(session::log_out(maps, client, None, true, post)?),
        Command::Login {
            user_name,
            password,
            cpu,
            authorises,
            ..
        } => session::log_in(maps, client, user_name, password, *cpu, *authorises, post),
        _ => Err(Stop::Refused(Refusal::LogInFirst)),
    }
}

/// What a command of a user comes to, by its rule: an arm for each command.
#[rattlefmt::skip]
fn answer_user(by: &Issuer, command: &Command, post: &mut Post) -> Result<Change, Stop>
    requires me { name_of by.now.maps.now.plain by.now.client ≡ Some by.now.me.now }
    requires kinds { IsTrue (keeps_kinds command.now) }
    requires issuer { post.old.issuer ≡ by.now.client }
    ensures { Answers by.now.maps.now.plain by.now.client post.old post.new
        (answer by.now.maps.now.plain by.now.client (Some by.now.me.now) command.now) result }
{
    match command {
        Command::Blank => Ok(Change::Nothing),
        Command::Unread(fault) => Err(Stop::Refused(Refusal::Fault(*fault))),
        Command::Ping => session::ping(by.maps, by.client, post),
        Command::Exit => Ok(session::log_out(by.maps, by.client, Some(by.me), true, post)?),
        Command::Login { .. } => Err(Stop::Refused(Refusal::AlreadyIn)),
        Command::MyStatus { status } => session::my_status(by, *status, post),
        Command::Join { channel, .. } => channels::join(by, channel, post),
        Command::Leave { channel } => channels::leave(by, channel, post),
        Command::Say { channel, text } => {
            let line = Reply::Said { channel: Name(Held::Lent(channel)), user: Name(Held::Lent(by.me)),
                text: Text(HeldText::Lent(text)) };
            channels::say_in_channel(by, channel, line, post)
        }
        Command::SayEx { channel, text } => {
            let line = Reply::SaidEx { channel: Name(Held::Lent(channel)), user: Name(Held::Lent(by.me)),
                text: Text(HeldText::Lent(text)) };
            channels::say_in_channel(by, channel, line, post)
        }
        Command::SayPrivate { user, text } => channels::say_private(by, user, text, post),
        Command::Channels => channels::list_channels(by, post),
        Command::OpenBattle { battle_type, nat_type, password, port, max_players, game_hash, rank, map_hash,
            engine_name, engine_version, map, title, game_name } => {
            let opening = Opening { battle_type: *battle_type, nat_type: *nat_type, password, port: *port,
                max_players: *max_players, game_hash: *game_hash, rank: *rank, map_hash: *map_hash, engine_name,
                engine_version, map, title, game_name };
            battles::open_battle(by, &opening, post)
        }
        Command::JoinBattle { battle, password, script_password } =>
            joining::join_battle(by, *battle, password.as_ref(), script_password.as_ref(), post),
        Command::LeaveBattle => battles::leave_battle(by, post),
        Command::UpdateBattleInfo { spectator_count, locked, map_hash, map } =>
            battles::update_battle(by, *spectator_count, *locked, *map_hash, map, post),
        Command::MyBattleStatus { battle_status, team_color } =>
            battles::my_battle_status(by, *battle_status, *team_color, post),
        Command::SayBattle { text } => {
            let line = Reply::SaidBattle { user: Name(Held::Lent(by.me)), text: Text(HeldText::Lent(text)) };
            battles::say_in_battle(by, line, post)
        }
        Command::SayBattleEx { text } => {
            let line = Reply::SaidBattleEx { user: Name(Held::Lent(by.me)), text: Text(HeldText::Lent(text)) };
            battles::say_in_battle(by, line, post)
        }
        Command::AddBot { bot, battle_status, team_color, ai } =>
            rooms::add_bot(by, bot, *battle_status, *team_color, ai, post),
        Command::UpdateBot { bot, battle_status, team_color } =>
            rooms::update_bot(by, bot, *battle_status, *team_color, post),
        Command::RemoveBot { bot } => rooms::remove_bot(by, bot, post),
        Command::AddStartRect { ally_no, left, top, right, bottom } => {
            let rect = Rect { left: *left, top: *top, right: *right, bottom: *bottom };
            rooms::add_rect(by, *ally_no, rect, post)
        }
        Command::RemoveStartRect { ally_no } => rooms::remove_rect(by, *ally_no, post),
        Command::SetScriptTags { pairs } => rooms::set_script_tags(by, pairs, post),
        Command::RemoveScriptTags { keys } => rooms::remove_script_tags(by, keys, post),
        Command::Handicap { user, value } => rooms::force_on_member(by, user, Force::Handicap(*value), post),
        Command::ForceTeamNo { user, number } => rooms::force_on_member(by, user, Force::Team(*number), post),
        Command::ForceAllyNo { user, number } => rooms::force_on_member(by, user, Force::Ally(*number), post),
        Command::ForceTeamColor { user, team_color } =>
            rooms::force_on_member(by, user, Force::Colour(*team_color), post),
        Command::ForceSpectatorMode { user } => rooms::force_on_member(by, user, Force::Spectator, post),
        Command::KickFromBattle { user } => rooms::kick(by, user, post),
        Command::Ring { user } => rooms::ring(by, user, post),
        Command::JoinBattleAccept { user } => joining::accept(by, user, post),
        Command::JoinBattleDeny { user, reason } => joining::deny(by, user, reason.as_ref(), post),
        Command::DisableUnits { units } => rooms::disable_units(by, units, post),
        Command::EnableUnits { units } => rooms::enable_units(by, units, post),
        Command::EnableAllUnits => rooms::enable_all_units(by, post),
    }
}

/// Tells the issuer why its command was refused.
fn refuse(refusal: Refusal, post: &mut Post) -> Result<(), AllocError>
    ensures { OnOk result ((s : State) → Told s post.old post.new (tell issuer (refusal_reply refusal ∷ []) ∷ [])) }
{
    let text = refusal.text();
    post.tell_issuer(refusal.line(&text))?;
    Ok(())
}
