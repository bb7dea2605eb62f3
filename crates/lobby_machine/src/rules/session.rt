//! Coming and going, and the status of users: docs/PROTOCOL.md, "What the server does", from "Connect" to
//! "MYSTATUS", and "EXIT" and "Disconnect".

ghost use Rattle.std.specs.Prelude.{◌≡◌, ℕ, [], ◌∷◌, OnOk, IfOk, true, false, Some, None, option_copied};
ghost use Rattle.account_book.specs.Book.{login};
ghost use Rattle.line_words.specs.Table.{at_number};
ghost use Rattle.reply_kinds.specs.declared.Reply.TheVariants as reply;
ghost use Rattle.room_lists.specs.Room.{has_member};
ghost use Rattle.lobby_model.specs.State.{Battle, battle_of, hears, name_of};
ghost use Rattle.lobby_model.specs.Outcome.{done, only_told, tell, issuer};
ghost use Rattle.lobby_model.specs.Sessions.{departs, log_in, set_user_status, user_of};
ghost use Rattle.lobby_post.specs.Posted.{Told, begun};
ghost use Rattle.battle_rules.specs.Answers.{Answers, Obeyed};
ghost use Rattle.lobby_battles.specs.Battles.{IsOnly};
ghost use Rattle.lobby_maps.specs.Changes.{first_of, parts};
ghost use Rattle.battle_rules.specs.BattleTalk.{left_battle_letters};
ghost use Rattle.lobby_battles.specs.OnlineUsers.{plain_user};
ghost use Rattle.lobby_machine.specs.Logins.{AnswersWith};

use super::channels::tell_left;
use super::guards::{account_for, account_of, free_name, name_if_free};
use crate::login_answer::LoginAnswer;
use account_book::Account;
use battle_rules::battles::{Leaving, tell_leaving};
use battle_rules::{Issuer, Stop};
use line_words::{NameBuf, WordBuf};
use lobby_maps::{Change, Maps, OnlineUser};
use lobby_post::{ClientKey, Post};
use reply_kinds::{Held, Name, Reply};
use status_bits::{UserStatus, merge_user};
use std::alloc::AllocError;

/// `PING`.
pub fn ping(maps: &Maps, client: u64, post: &mut Post) -> Result<Change, Stop>
    ensures { Answers maps.now.plain client post.old post.new (done (only_told (tell issuer (reply.Pong ∷ [])
        ∷ []))) result }
{
    post.tell_issuer(Reply::Pong)?;
    Ok(Change::Nothing)
}

/// `LOGIN` of a client at which nobody is logged in: the account lets it in, and nobody has its name.
pub fn log_in(
    maps: &Maps,
    client: u64,
    user_name: &WordBuf,
    password: &WordBuf,
    cpu: i64,
    authorises: bool,
    post: &mut Post,
) -> Result<Change, Stop>
    requires hears { hears maps.now.plain client ≡ true }
    requires nobody { name_of maps.now.plain client ≡ None }
    ensures { Answers maps.now.plain client post.old post.new
        (log_in maps.now.plain client cpu authorises
        (login maps.now.plain.accounts user_name.now password.now)) result }
{
    let account = account_for(maps, user_name, password)?;
    let name = free_name(maps, account)?;
    let key = maps.client_key(client);
    let online_user = online_user_of(key, account, cpu, authorises);
    maps.tell_burst(&name, &online_user, post)?;
    maps.tell_arrival(&name, &online_user, post)?;
    Ok(Change::LogIn { name, online_user })
}

/// How a login with this name and this password word is answered.
pub fn login_answer(
    maps: &Maps,
    client: u64,
    me: Option<&NameBuf>,
    user_name: &WordBuf,
    password: &WordBuf,
) -> LoginAnswer
    requires { option_copied me ≡ name_of maps.now.plain client }
    ensures { AnswersWith maps.now.plain client user_name.now password.now result }
{
    if me.is_some() {
        return LoginAnswer::Again;
    }
    let Some(account) = account_of(maps, user_name, password) else {
        return LoginAnswer::Invalid;
    };
    match name_if_free(maps, account) {
        Some(_) => LoginAnswer::LetIn,
        None => LoginAnswer::InUse,
    }
}

/// `MYSTATUS`: rank, moderator and bot stay those of the account.
pub fn my_status(by: &Issuer, asked: u32, post: &mut Post) -> Result<Change, Stop>
    ensures { Answers by.now.maps.now.plain by.now.client post.old post.new
        (set_user_status by.now.maps.now.plain by.now.me.now asked) result }
{
    let status = merge_user(by.maps.status_of(by.me), asked);
    let line = Reply::ClientStatus {
        user: Name(Held::Lent(by.me)),
        status: status.word(),
    };
    by.maps.tell_all(line, post)?;
    Ok(Change::Status {
        name: by.me.copy(),
        status,
    })
}

/// `EXIT`, and the end of a connection: a client's user, where there is one, logs out, and the
/// client ends, or, where it does not stay, is there no more.
pub fn log_out(
    maps: &Maps,
    client: u64,
    me: Option<&NameBuf>,
    stays: bool,
    post: &mut Post,
) -> Result<Change, AllocError>
    requires { option_copied me ≡ name_of maps.now.plain client }
    ensures { IfOk result (λ change. Obeyed maps.now.plain client post.old post.new change
        (departs maps.now.plain (option_copied me.entry) (parts client stays))) }
{
    let Some(me) = me else {
        return Ok(Change::LogOut {
            name: None,
            asks: None,
            battle: None,
            stays,
        });
    };
    tell_left(maps, me, post)?;
    let asks = maps.asked_by(me);
    let battle = tell_battle_left(maps, me, post)?;
    maps.tell_others(
        Reply::RemoveUser {
            user: Name(Held::Lent(me)),
        },
        post,
    )?;
    Ok(Change::LogOut {
        name: Some(me.copy()),
        asks,
        battle,
        stays,
    })
}

/// Tells that one who logs out leaves its battle, where it is in one, and gives that battle's
/// number.
fn tell_battle_left(maps: &Maps, me: &NameBuf, post: &mut Post) -> Result<Option<u32>, AllocError>
    ensures told { OnOk result (Told maps.now.plain post.old post.new
        (left_battle_letters me.now (battle_of maps.now.plain me.now))) }
    ensures number { IfOk result (λ number. number ≡ first_of (battle_of maps.now.plain me.now)) }
    ensures only { IfOk result (λ number. IsOnly (has_member me.now) maps.now.plain.battles number) }
    ensures there { (own : ℕ × Battle) → battle_of maps.now.plain me.now ≡ Some own
        → at_number maps.now.plain.battles own.0 ≡ Some own.1 }
{
    let Some((number, battle)) = maps.battle_of(me) else {
        return Ok(None);
    };
    tell_leaving(maps, me, number, battle, Leaving::Unseen, post)?;
    Ok(Some(number))
}

/// What the end of a client's connection comes to. Fails only where memory is refused, as `decide` does.
pub fn close(maps: &Maps, client: u64, post: &mut Post) -> Result<Change, AllocError>
    ensures { IfOk result (λ change. Obeyed maps.now.plain client (begun client None) post.new change
        (departs maps.now.plain (name_of maps.now.plain client) (parts client false))) }
{
    post.begin(client, None);
    let me = maps.name_of(client);
    log_out(maps, client, me, false, post)
}

/// A user of an account who is online, by the key of its client.
fn online_user_of(client: ClientKey, account: &Account, cpu: i64, authorises: bool) -> OnlineUser
    ensures here { result.client.number ≡ client.number }
    ensures outside { result.battle ≡ None }
    ensures user { plain_user result ≡ user_of account.now cpu authorises }
{
    OnlineUser {
        client,
        country: account.country(),
        cpu,
        account: account.id(),
        status: UserStatus::of_account(account.rank(), account.access(), account.bot()),
        authorises,
        battle: None,
    }
}
