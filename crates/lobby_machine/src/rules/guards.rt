//! Guards of coming and of channels: each gives a thing, or the refusal of one who asks for it in vain. The
//! refusals are those of docs/PROTOCOL.md, "The texts".

ghost use Rattle.std.specs.List.{IsDistinct};
ghost use Rattle.std.specs.Prelude.{◌≡◌, true, false, Ok, IfOk, IfErr, IfSome, None, is_ok, is_some};
ghost use Rattle.account_book.specs.Book.{login};
ghost use Rattle.line_words.specs.Table.{at_name, is_among, same_name};
ghost use Rattle.channel_book.specs.Channels.{names_in};
ghost use Rattle.battle_rules.specs.Answers.{Refuses};
ghost use Rattle.battle_rules.specs.declared.refusal.Refusal.TheVariants.{InvalidLogin, UserIsIn, AlreadyInChannel};
ghost use Rattle.battle_rules.specs.declared.refusal.Refusal.TheVariants.{NotInChannel, NoSuchUser};

use account_book::Account;
use battle_rules::{Refusal, Stop, or_refuse, refuse_if};
use channel_book::Members;
use line_words::{NameBuf, WordBuf};
use lobby_maps::Maps;
use lobby_post::ClientKey;

/// The account that a login is for. None where its name or its password word is of no account.
pub fn account_of<'a>(
    maps: &'a Maps,
    user_name: &WordBuf,
    password: &WordBuf,
) -> Option<&'a Account>
    ensures some { IfSome result (λ account.
        login maps.now.plain.accounts user_name.now password.now ≡ Ok account.now) }
    ensures none { result ≡ None → is_ok (login maps.now.plain.accounts user_name.now password.now) ≡ false }
{
    let found = maps
        .accounts()
        .check(user_name.as_slice(), password.as_slice());
    found.ok()
}

/// The account that a login is for.
pub fn account_for<'a>(
    maps: &'a Maps,
    user_name: &WordBuf,
    password: &WordBuf,
) -> Result<&'a Account, Stop>
    ensures ok { IfOk result (λ account. login maps.now.plain.accounts user_name.now password.now ≡ Ok account.now) }
    ensures err { IfErr result (Refuses InvalidLogin (is_ok (login maps.now.plain.accounts user_name.now password.now)
        ≡ false)) }
{
    or_refuse(account_of(maps, user_name, password), Refusal::InvalidLogin)
}

/// The name of an account. None where a user of that name is logged in.
pub fn name_if_free(maps: &Maps, account: &Account) -> Option<NameBuf>
    ensures some { IfSome result (λ name. (name ≡ account.now.name)
        × (is_some (at_name maps.now.plain.users account.now.name) ≡ false)) }
    ensures none { result ≡ None → is_some (at_name maps.now.plain.users account.now.name) ≡ true }
{
    let Some(name) = NameBuf::of(account.name()) else {
        unreachable!();
    };
    if maps.has_user(&name) {
        return None;
    }
    Some(name)
}

/// The name of an account, under which nobody is logged in.
pub fn free_name(maps: &Maps, account: &Account) -> Result<NameBuf, Stop>
    ensures ok { IfOk result (λ name. (name ≡ account.now.name)
        × (is_some (at_name maps.now.plain.users account.now.name) ≡ false)) }
    ensures err { IfErr result (Refuses UserIsIn (is_some (at_name maps.now.plain.users account.now.name) ≡ true)) }
{
    or_refuse(name_if_free(maps, account), Refusal::UserIsIn)
}

/// Who is in a channel, a user among them.
pub fn members_with<'a>(
    maps: &'a Maps,
    me: &NameBuf,
    channel: &NameBuf,
) -> Result<&'a Members<ClientKey>, Stop>
    ensures names { IfOk result (λ members. members.now ≡ names_in maps.now.plain.channels channel.now) }
    ensures among { IfOk result (λ _. is_among me.now (names_in maps.now.plain.channels channel.now) ≡ true) }
    ensures err { IfErr result (Refuses NotInChannel (is_among me.now (names_in maps.now.plain.channels channel.now)
        ≡ false)) }
{
    let members = or_refuse(maps.channels().members_in(channel), Refusal::NotInChannel)?;
    refuse_if(!members.has_member(me), Refusal::NotInChannel)?;
    Ok(members)
}

/// Who is in a channel, a user not among them.
pub fn names_without<'a>(
    maps: &'a Maps,
    me: &NameBuf,
    channel: &NameBuf,
) -> Result<&'a [NameBuf], Stop>
    ensures names { IfOk result (λ names. names.now ≡ names_in maps.now.plain.channels channel.now) }
    ensures among { IfOk result (λ names. is_among me.now (names_in maps.now.plain.channels channel.now) ≡ false) }
    ensures distinct { IfOk result (λ names. IsDistinct same_name names.now) }
    ensures err { IfErr result (Refuses (AlreadyInChannel channel.now)
        (is_among me.now (names_in maps.now.plain.channels channel.now) ≡ true)) }
{
    let refusal = Refusal::AlreadyInChannel(channel.copy());
    refuse_if(maps.channels().has_member(channel, me), refusal)?;
    Ok(maps.channels().names_in(channel))
}

/// Somebody of this name is logged in.
pub fn user_named(maps: &Maps, name: &NameBuf) -> Result<(), Stop>
    ensures ok { IfOk result (λ _. is_some (at_name maps.now.plain.users name.now) ≡ true) }
    ensures err { IfErr result (Refuses NoSuchUser (is_some (at_name maps.now.plain.users name.now) ≡ false)) }
{
    refuse_if(!maps.has_user(name), Refusal::NoSuchUser)
}
