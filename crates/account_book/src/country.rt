//! Where an account's owner comes from.

ghost use Rattle.std.specs.Prelude.{◌≡◌, true};
ghost use Rattle.account_book.specs.Account.{is_country};

use line_words::Word;
use std::marker::Model;

/// A country as ADDUSER tells it: two upper-case letters, or `??` where it is not known.
#[derive(Drop)]
pub struct Country {
    letters: [u8; 2],
}

impl Model for Country {
    ghost use Rattle.std.specs.Prelude.{◌≡◌, List, ℕ, true};
    ghost use Rattle.account_book.specs.Account.{is_country};

    ghost Value = { List ℕ };

    ghost view = { λ c. c.letters };

    ghost invariant = { λ c. is_country c.letters ≡ true };
}

impl Country {
    /// That of these letters.
    pub(crate) fn of(letters: [u8; 2]) -> Country
        requires { is_country letters ≡ true }
        ensures { result ≡ letters }
    {
        Country { letters }
    }

    /// The two letters.
    pub fn as_slice(&self) -> &[u8]
        ensures value { result.now ≡ self.now }
        ensures kind { is_country result.now ≡ true }
    {
        &self.letters
    }

    /// The two letters, lent as a word.
    #[tactic(auto, using(crate::proofs::Countries::country_is_word))]
    pub fn as_word(&self) -> Word<'_>
        ensures { result ≡ self.now }
    {
        match Word::of(&self.letters) {
            Some(word) => word,
            None => unreachable!(),
        }
    }
}
