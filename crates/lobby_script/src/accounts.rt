//! The accounts that a script writes.

ghost use Rattle.std.specs.Prelude.{◌≡◌, ◌<◌, ℕ, List, IfOk, IfSome, IsSomeAnd};
ghost use Rattle.account_book.specs.Account.{Account as Written};
ghost use Rattle.proxy_line.specs.Words.{Finds};
ghost use Rattle.lobby_script.specs.Accounts.{HasFields, IsRankAndCountry, WritesAccount};
ghost use Rattle.lobby_script.specs.Fields.{stated_by};

use account_book::{Account, AccountsError};
use proxy_line::{number, number_before, part_at};
use std::alloc::{AllocError, Global};

/// A country that is not known.
const UNKNOWN: &[u8] = b"??";

/// What a line tells of an account.
#[derive(Clone, Copy)]
struct Fields<'a> {
    name: &'a [u8],
    password: &'a [u8],
    id: u32,
    rank: u8,
    country: &'a [u8],
}

/// The account that the text writes, neither a moderator's nor a program's; `None` where it has
/// another form, or a field breaks its rule.
pub fn read_account(alloc: Global, text: &[u8]) -> Result<Option<Account>, AllocError>
    ensures { IfOk result (Finds (WritesAccount text.now)) }
{
    let Some(fields) = read_fields(text) else {
        return Ok(None);
    };
    let made = Account::new(
        alloc,
        fields.name,
        fields.password,
        fields.id,
        fields.rank,
        false,
        false,
        fields.country,
    );
    match made {
        Ok(account) => Ok(Some(account)),
        Err(error) => match error {
            AccountsError::BadField(_) => Ok(None),
            // It is refused for no other cause but memory.
            AccountsError::NotToml | AccountsError::DuplicateName | AccountsError::Memory => {
                Err(AllocError)
            }
        },
    }
}

fn read_fields(text: &[u8]) -> Option<Fields<'_>>
    ensures sound { IfSome result (λ fields. HasFields text.now (stated_by fields)) }
    ensures complete { (account : Written) → HasFields text.now account
        → IsSomeAnd result (λ fields. stated_by fields ≡ account) }
{
    let (name, rest) = part_at(text, b' ')?;
    let (password, rest) = part_at(rest, b' ')?;
    let (id, rest) = number_before(rest, b' ')?;
    let (rank, country) = rank_and_country(rest)?;
    Some(Fields {
        name,
        password,
        id,
        rank,
        country,
    })
}

fn rank_and_country(text: &[u8]) -> Option<(u8, &[u8])>
    ensures sound { IfSome result (λ parts. IsRankAndCountry text.now parts.0 parts.1.now) }
    ensures complete { (rank : ℕ) (country : List ℕ) → IsRankAndCountry text.now rank country
        → IsSomeAnd result (λ parts. (parts.0 ≡ rank) × (parts.1.now ≡ country)) }
{
    let (rank, country) = part_at(text, b' ').unwrap_or((text, UNKNOWN));
    Some((u8::try_from(number(rank)?).ok()?, country))
}
