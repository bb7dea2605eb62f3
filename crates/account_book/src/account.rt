//! One account.

ghost use Rattle.std.specs.Prelude.{◌≡◌, ◌≢◌, ◌↔◌, ◌<◌, true, false, IfOk, IfErr};
ghost use Rattle.line_words.specs.Bytes.{is_name};
ghost use Rattle.account_book.specs.Account.{IsHeld, is_password_word, is_country, is_sound, stated};

use crate::country::Country;
use crate::error::AccountsError;
use base64::engine::general_purpose::STANDARD;
use line_words::is_name;
use std::alloc::Global;
use std::marker::Model;

/// The highest rank: a status word has three bits for it.
const TOP_RANK: u8 = 7;

/// An account under which a client can log in. Its fields are those of a table of a file of accounts.
#[derive(Drop)]
pub struct Account {
    name: Vec<u8>,
    password: [u8; 24],
    id: u32,
    rank: u8,
    access: bool,
    bot: bool,
    country: [u8; 2],
}

impl Model for Account {
    ghost use Rattle.std.specs.Prelude.{◌≡◌, true};
    ghost use Rattle.account_book.specs.Account.{Account as Seen, stated, is_sound};

    ghost Value = { Seen };

    ghost view = { λ a.
        stated a.name.items a.password a.id a.rank a.access a.bot a.country };

    ghost invariant = { λ a.
        is_sound (stated a.name.items a.password a.id a.rank a.access a.bot a.country) ≡ true };
}

impl Account {
    /// An account of these fields: a name of 1 to 20 letters, digits, `_`, `[` and `]`; a password
    /// word, the base64 text of 16 bytes; a number of 32 bits; a rank of 0 to 7; whether its
    /// owner is a moderator (`access`); whether it is a program's (`bot`); a country of two upper-case
    /// letters, or `??`.
    ///
    /// `BadField(0)` where a field breaks its rule, else `Memory` where memory for the name is refused.
    pub fn new(
        alloc: Global,
        name: &[u8],
        password: &[u8],
        id: u32,
        rank: u8,
        access: bool,
        bot: bool,
        country: &[u8],
    ) -> Result<Account, AccountsError>
        ensures ok { IfOk result (λ account.
            account ≡ stated name.now password.now id rank access bot country.now) }
        ensures bad_field { (result ≡ Err (AccountsError.BadField 0))
            ↔ (is_sound (stated name.now password.now id rank access bot country.now) ≡ false) }
        ensures errors { IfErr result (λ e.
            e ≢ AccountsError.Memory → e ≡ AccountsError.BadField 0) }
    {
        let sound = is_name(name)
            && is_password_word(password)
            && rank <= TOP_RANK
            && is_country(country);
        if !sound {
            return Err(AccountsError::BadField(0));
        }
        let Ok(name) = Vec::from_slice(alloc, name) else {
            return Err(AccountsError::Memory);
        };
        let mut word = [0; 24];
        word.copy_from_slice(password);
        let mut letters = [0; 2];
        letters.copy_from_slice(country);
        Ok(Account {
            name,
            password: word,
            id,
            rank,
            access,
            bot,
            country: letters,
        })
    }

    /// What every account keeps: each field its rule, and a number of 32 bits. Does nothing.
    pub fn keeps_its_rules(&self)
        ensures { IsHeld self.now }
    {
        let _ = &self.name;
        let _number = self.id;
    }

    /// The name under which its owner logs in.
    pub fn name(&self) -> &[u8]
        ensures value { result.now ≡ self.now.name }
        ensures is_name { is_name result.now ≡ true }
    {
        &self.name
    }

    /// The word of its password: the base64 text of 16 bytes, 24 bytes long.
    pub fn password(&self) -> &[u8]
        ensures value { result.now ≡ self.now.password }
        ensures is_password_word { is_password_word result.now ≡ true }
    {
        &self.password
    }

    /// Its number, 0 to 4294967295, which ADDUSER tells (`accountID`).
    pub fn id(&self) -> u32
        ensures { result ≡ self.now.id }
    {
        self.id
    }

    /// The rank of its owner, 0 to 7.
    pub fn rank(&self) -> u8
        ensures value { result ≡ self.now.rank }
        ensures bound { result < 8 }
    {
        self.rank
    }

    /// Whether its owner is a moderator.
    pub fn access(&self) -> bool
        ensures { result ≡ self.now.access }
    {
        self.access
    }

    /// Whether it is a program's.
    pub fn bot(&self) -> bool
        ensures { result ≡ self.now.bot }
    {
        self.bot
    }

    /// The country that ADDUSER tells: two upper-case letters, or `??`.
    pub fn country(&self) -> Country
        ensures { result ≡ self.now.country }
    {
        Country::of(self.country)
    }
}

/// Whether these bytes are the base64 text of 16 bytes.
fn is_password_word(word: &[u8]) -> bool
    ensures { result ≡ is_password_word word.now }
{
    // Room for what any 24 digits decode to.
    let mut digest = [0; 18];
    word.len() == 24 && STANDARD.decode_slice_unchecked(word, &mut digest) == Ok(16)
}

/// Whether these bytes name a country.
pub(crate) fn is_country(bytes: &[u8]) -> bool
    ensures { result ≡ is_country bytes.now }
{
    bytes == b"??".as_slice() || bytes.len() == 2 && bytes.iter().all(|b| b.is_ascii_uppercase())
}
