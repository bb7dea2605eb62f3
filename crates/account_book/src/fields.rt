//! What the tables of a file of accounts say.

ghost use Rattle.std.specs.Prelude.{◌≡◌, IfOk};
ghost use Rattle.toml.specs.View.{view, table_view};
ghost use Rattle.account_book.specs.Entries.{profile_of, default_of, disabled_of, contents_of, fields_of, described};
ghost use Rattle.account_book.specs.Fields.{shown, shown_profile, contents_shown, stated_of};

use crate::account::{Account, is_country};
use crate::error::AccountsError;
use crate::listing::Listing;
use crate::profile::{PLAIN, Profile};
use std::alloc::{AllocError, Global};
use toml::{Table, Value};
use toml_fields::{
    FieldFault, flag_or, list_or_empty, number_at, number_or, table_or_none, text_at, text_or,
};

/// The format whose files may have `default`, and whose accounts may have `disabled`.
const SECOND_FORMAT: u32 = 2;

/// The profile that a table states, with another's values for what it leaves out.
fn profile_of<'a>(table: &'a Table, others: Profile<'a>) -> Result<Profile<'a>, FieldFault>
    ensures { shown_profile result ≡ profile_of (shown others.entry) (table_view table.now) }
{
    Ok(Profile {
        rank: number_or(table, "rank", 0, 7, u32::from(others.rank))? as u8,
        access: flag_or(table, "access", others.access)?,
        bot: flag_or(table, "bot", others.bot)?,
        country: text_or(table, "country", others.country)?,
    })
}

/// The profile for what accounts leave out.
fn default_of(table: &Table, format: u32) -> Result<Profile<'_>, FieldFault>
    ensures { shown_profile result ≡ default_of format (table_view table.now) }
{
    if format != SECOND_FORMAT {
        return Ok(PLAIN);
    }
    let Some(default) = table_or_none(table, "default")? else {
        return Ok(PLAIN);
    };
    let profile = profile_of(default, PLAIN)?;
    if is_country(profile.country.as_bytes()) {
        Ok(profile)
    } else {
        Err(FieldFault::NotAllowed)
    }
}

/// Whether a table states that its account is disabled.
fn disabled_of(table: &Table, format: u32) -> Result<bool, FieldFault>
    ensures { result ≡ disabled_of format (table_view table.now) }
{
    if format == SECOND_FORMAT {
        flag_or(table, "disabled", false)
    } else {
        Ok(false)
    }
}

/// What a file says: its format, the profile for what its accounts leave out, and their list.
#[derive(Drop)]
pub struct Contents<'a> {
    /// The format of the file, 1 or 2.
    pub format: u32,
    /// What its accounts have that leave something out.
    pub default: Profile<'a>,
    /// The list of its accounts, an entry each.
    pub entries: &'a [Value],
}

/// What the table of a file says, where the keys that are for the whole file have good values.
pub fn contents_of(table: &Table) -> Result<Contents<'_>, FieldFault>
    ensures { contents_shown result ≡ contents_of (table_view table.now) }
{
    let format = number_or(table, "format", 1, SECOND_FORMAT, 1)?;
    Ok(Contents {
        format,
        default: default_of(table, format)?,
        entries: list_or_empty(table, "account")?,
    })
}

/// What a table states of an account.
#[derive(Drop)]
struct Fields<'a> {
    name: &'a str,
    password: &'a str,
    id: u32,
    profile: Profile<'a>,
}

/// What a table states of an account, where its keys have values of their kinds.
fn fields_of<'a>(table: &'a Table, default: Profile<'a>) -> Result<Fields<'a>, FieldFault>
    ensures { stated_of result ≡ fields_of (shown default.entry) (table_view table.now) }
{
    Ok(Fields {
        name: text_at(table, "name")?,
        password: text_at(table, "password")?,
        id: number_at(table, "id", 0, u32::MAX)?,
        profile: profile_of(table, default)?,
    })
}

/// What an entry of the list describes, or `None` where it is bad.
pub fn described(
    alloc: Global,
    format: u32,
    default: Profile<'_>,
    entry: &Value,
) -> Result<Option<Listing>, AllocError>
    ensures { IfOk result (λ listing. listing ≡ described format (shown default.entry) (view entry.now)) }
{
    let Some(table) = entry.as_table() else {
        return Ok(None);
    };
    let Ok(fields) = fields_of(table, default) else {
        return Ok(None);
    };
    let Ok(disabled) = disabled_of(table, format) else {
        return Ok(None);
    };
    match Account::new(
        alloc,
        fields.name.as_bytes(),
        fields.password.as_bytes(),
        fields.id,
        fields.profile.rank,
        fields.profile.access,
        fields.profile.bot,
        fields.profile.country.as_bytes(),
    ) {
        Ok(account) => Ok(Some(Listing { account, disabled })),
        Err(AccountsError::Memory) => Err(AllocError),
        Err(_) => Ok(None),
    }
}
