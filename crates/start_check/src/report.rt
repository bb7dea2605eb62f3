//! What the program `lobby_check` says.

ghost use Rattle.std.specs.Prelude.{◌≡◌, ◌+◌, ◌*◌, ◌/◌, ◌≤◌};
ghost use Rattle.start_check.specs.Statuses.{IsStatus};

use crate::accounts::accounts_of;
use crate::address::{Place, try_address};
use crate::burst::{battles_that_fit, longest_burst};
use crate::folder::try_folder;
use crate::settings::{Found, settings_of};
use crate::user::tell_user;
use account_book::AccountBook;
use lobby_model::settings::GREATEST_OUTBOX_LIMIT;
use lobby_model::{CLIENT_LIMIT, Settings};
use lobby_setup::Setup;
use std::env;
use std::net::Net;
use std::rt::{Env, Files};

const USAGE: &str = "usage: lobby_check SETTINGS ACCOUNTS";

/// What a client takes that is logged in, in a channel of 1,000, and reads, in bytes, as it was measured
/// (docs/OPERATING.md).
const CLIENT_BYTES: usize = 2_863;

/// What as many clients as a lobby takes have waiting if none of them reads, with what each takes besides, in
/// megabytes.
fn waiting_megabytes(outbox_limit: usize) -> usize
    requires { outbox_limit ≤ GREATEST_OUTBOX_LIMIT }
    ensures { result ≡ CLIENT_LIMIT * (CLIENT_BYTES + outbox_limit) / 1000000 }
{
    CLIENT_LIMIT * (CLIENT_BYTES + outbox_limit) / 1_000_000
}

/// Says what settings come to.
fn tell_settings<R: Print>(rt: &R, setup: &Setup) {
    setup.settings.keep_their_bounds();
    let unread = setup.settings.outbox_limit();
    let most = waiting_megabytes(unread);
    let _ = println!(rt;
        "settings: address {}, workers {}",
        setup.address, setup.workers
    );
    let _ = println!(rt;
        "memory: some {CLIENT_BYTES} bytes a client, and some {unread} more for one that does not read"
    );
    let _ = println!(rt;
        "memory: some {most} MB if {CLIENT_LIMIT} clients read nothing, and more where buffers have room to spare"
    );
}

/// Says what a login is sent at most, and warns where the limit of an outbox is below that.
fn tell_burst<R: Print>(rt: &R, settings: &Settings, accounts: usize) {
    let users = accounts.min(CLIENT_LIMIT);
    let burst = longest_burst(settings, users);
    let _ = println!(rt;
        "login: up to {burst} bytes, if each other user has opened a battle with the longest texts"
    );
    if burst > settings.outbox_limit() {
        let battles = battles_that_fit(settings, users);
        let _ = println!(rt;
            "warning: `outbox_limit` is less: who logs in is cut off while more than {battles} such battles are open"
        );
    }
}

/// Tries what settings name, and says as whom: the status.
fn try_setup<R: Files + Net + Print + AllocGlobal>(rt: &R, setup: &Setup) -> u8
where
    R::Stream: Drop,
    R::Listener: Drop,
    ensures { IsStatus result }
{
    let folder = setup.folder.as_str();
    let is_kept = folder.is_empty() || try_folder(rt, folder, setup.private);
    let place = try_address(rt, setup.address, &setup.proxies);
    match place {
        _ if !is_kept => 2,
        Place::Refused => 3,
        Place::Free | Place::Taken => 0,
    }
}

/// Says what the two files come to together: the status.
fn tell_both<R: Files + Net + Print + AllocGlobal>(
    rt: &R,
    settings: &Found<Setup>,
    accounts: &Found<AccountBook>,
) -> u8
where
    R::Stream: Drop,
    R::Listener: Drop,
    ensures { IsStatus result }
{
    if let Found::Good(setup) = settings {
        tell_settings(rt, setup);
    }
    if let Found::Good(accounts) = accounts {
        let _ = println!(rt; "accounts: {} can log in", accounts.len());
    }
    let (Found::Good(setup), Found::Good(accounts)) = (settings, accounts) else {
        return 2;
    };
    tell_burst(rt, &setup.settings, accounts.len());
    try_setup(rt, setup)
}

/// Whether it tells something to know as whom the program ran: a file could not be read, or both are good, so that what
/// they name is tried.
fn hangs_on_user(settings: &Found<Setup>, accounts: &Found<AccountBook>) -> bool {
    match (settings, accounts) {
        (Found::Unreadable, _) | (_, Found::Unreadable) | (Found::Good(_), Found::Good(_)) => true,
        _ => false,
    }
}

/// Looks at the files of settings and of accounts that the arguments name, and says all that is wrong in them and what
/// is odd. Where both are good it says what they come to, and tries the folder of a record and the address. The exit
/// status is 0 where a server can be started by them, 3 where it cannot listen at its address, else 2. Other arguments
/// give 2 and one line on standard error.
pub fn check<R: Files + Env + Net + Print + Eprint + AllocGlobal>(rt: &R) -> u8
where
    R::Stream: Drop,
    R::Listener: Drop,
    ensures { IsStatus result }
{
    let Ok(mut words) = env::args(rt) else {
        let _ = rt.eprintln(USAGE);
        return 2;
    };
    words.next();
    let (settings, accounts, more) = (words.next(), words.next(), words.next());
    let (Some(settings), Some(accounts), None) = (settings, accounts, more) else {
        let _ = rt.eprintln(USAGE);
        return 2;
    };
    let settings = settings_of(rt, settings.as_str());
    let accounts = accounts_of(rt, accounts.as_str());
    let status = tell_both(rt, &settings, &accounts);
    if hangs_on_user(&settings, &accounts) {
        tell_user(rt);
    }
    status
}
