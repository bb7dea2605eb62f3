//! What the keys of an account say.

ghost use Rattle.std.specs.Prelude.{◌≡◌, codes};
ghost use Rattle.std.specs.Result.{result_err};
ghost use Rattle.toml.specs.View.{table_view};
ghost use Rattle.toml_fields.specs.Fields.{lent, optional, required};
ghost use Rattle.account_book.specs.Account.{is_country, is_password_word};
ghost use Rattle.account_faults.specs.Faults.{name_at, that};

use base64::engine::general_purpose::STANDARD;
use line_words::is_name;
use toml::Table;
use toml_fields::{FieldFault, text_at, text_or};

/// The name of an account.
pub fn name_at(table: &Table) -> Result<&str, FieldFault>
    ensures { lent result ≡ name_at (table_view table.now) }
{
    match text_at(table, "name") {
        Ok(name) if is_name(name.as_bytes()) => Ok(name),
        Ok(_) => Err(FieldFault::NotAllowed),
        Err(cause) => Err(cause),
    }
}

/// Whether these bytes are the base64 text of 16 bytes.
fn is_password_word(word: &[u8]) -> bool
    ensures { result ≡ is_password_word word.now }
{
    // Room for what any 24 digits decode to.
    let mut digest = [0; 18];
    word.len() == 24 && STANDARD.decode_slice_unchecked(word, &mut digest) == Ok(16)
}

/// Why the word of a password is refused, if it is.
pub fn password_cause(table: &Table) -> Option<FieldFault>
    ensures { result ≡ result_err (required (that is_password_word) (codes "password") (table_view table.now)) }
{
    match text_at(table, "password") {
        Ok(word) if is_password_word(word.as_bytes()) => None,
        Ok(_) => Some(FieldFault::NotAllowed),
        Err(cause) => Some(cause),
    }
}

/// Whether these bytes name a country.
fn is_country(bytes: &[u8]) -> bool
    ensures { result ≡ is_country bytes.now }
{
    bytes == b"??".as_slice() || bytes.len() == 2 && bytes.iter().all(|b| b.is_ascii_uppercase())
}

/// Why a country is refused, if it is.
pub fn country_cause(table: &Table) -> Option<FieldFault>
    ensures { result ≡ result_err (optional (that is_country) (codes "??") (codes "country") (table_view table.now)) }
{
    match text_or(table, "country", "??") {
        Ok(word) if is_country(word.as_bytes()) => None,
        Ok(_) => Some(FieldFault::NotAllowed),
        Err(cause) => Some(cause),
    }
}
