//! Vectors of the two standards behind password words, and files with each kind of fault.

use crate::verdict::{fail, same, same_for};
use account_book::{Account, AccountBook, AccountsError, LoginFault, password_word};
use base64::engine::general_purpose::STANDARD;
use std::alloc::{AllocError, Global};
use std::process::Abort;

const WORD: &[u8] = b"X03MO1qnZdYdgyfeuILPmQ==";

/// The word of the empty password.
const NO_PASSWORD: &[u8] = b"1B2M2Y8AsgTpgAmY7PhCfg==";

const THREE: &[u8] = b"
format = 1

[[account]]
name = 'Anna'
password = 'X03MO1qnZdYdgyfeuILPmQ=='
id = 1
country = 'DE'

[[account]]
name = 'Bert'
password = 'X03MO1qnZdYdgyfeuILPmQ=='
id = 2
rank = 3

[[account]]
name = 'Cleo'
password = 'X03MO1qnZdYdgyfeuILPmQ=='
id = 3
country = 'FR'
colour = 'a key that is not known'
";

/// Why a file is refused, or `None` if it is a good one.
fn refusal(alloc: Global, file: &[u8]) -> Option<AccountsError> {
    AccountBook::from_toml(alloc, file).err()
}

/// The passwords of RFC 1321's test suite, and their digests.
static SUITE: [(&[u8], &[u8]); 7] = [
    (
        b"",
        b"\xd4\x1d\x8c\xd9\x8f\x00\xb2\x04\xe9\x80\x09\x98\xec\xf8\x42\x7e",
    ),
    (
        b"a",
        b"\x0c\xc1\x75\xb9\xc0\xf1\xb6\xa8\x31\xc3\x99\xe2\x69\x77\x26\x61",
    ),
    (
        b"abc",
        b"\x90\x01\x50\x98\x3c\xd2\x4f\xb0\xd6\x96\x3f\x7d\x28\xe1\x7f\x72",
    ),
    (
        b"message digest",
        b"\xf9\x6b\x69\x7d\x7c\xb7\x93\x8d\x52\x5a\x2f\x31\xaa\xf1\x61\xd0",
    ),
    (
        b"abcdefghijklmnopqrstuvwxyz",
        b"\xc3\xfc\xd3\xd7\x61\x92\xe4\x00\x7d\xfb\x49\x6c\xca\x67\xe1\x3b",
    ),
    (
        b"ABCDEFGHIJKLMNOPQRSTUVWXYZabcdefghijklmnopqrstuvwxyz0123456789",
        b"\xd1\x74\xab\x98\xd2\x77\xd9\xf5\xa5\x61\x1c\x2c\x9f\x41\x9d\x9f",
    ),
    (
        b"12345678901234567890123456789012345678901234567890123456789012345678901234567890",
        b"\x57\xed\xf4\xa2\x2b\xe3\xc9\x55\xac\x49\xda\x2e\x21\x07\xb6\x7a",
    ),
];

/// Whether the word of a password is this digest in base64.
fn writes_digest(alloc: Global, password: &[u8], digest: &[u8]) -> bool {
    match STANDARD.decode(alloc, &password_word(password)) {
        Ok(bytes) => bytes.as_slice() == digest,
        Err(_) => false,
    }
}

#[test]
fn words_of_the_md5_test_suite(rt: HostRuntime) {
    for (password, digest) in &SUITE {
        same_for(
            &rt,
            password,
            writes_digest(rt.alloc(), password, digest),
            true,
        );
    }
    same(&rt, password_word(b"password").as_slice(), WORD);
    same(&rt, password_word(b"").as_slice(), NO_PASSWORD);
}

static VECTORS: [(&str, &str); 7] = [
    ("", ""),
    ("f", "Zg=="),
    ("fo", "Zm8="),
    ("foo", "Zm9v"),
    ("foob", "Zm9vYg=="),
    ("fooba", "Zm9vYmE="),
    ("foobar", "Zm9vYmFy"),
];

fn encodes(alloc: Global, bytes: &str, text: &str) -> bool {
    match STANDARD.encode(alloc, bytes.as_bytes()) {
        Ok(encoded) => encoded.as_str() == text,
        Err(_) => false,
    }
}

#[test]
fn base64_test_vectors(rt: HostRuntime) {
    for (bytes, text) in &VECTORS {
        same_for(&rt, bytes, encodes(rt.alloc(), bytes, text), true);
    }
}

/// What an account shows.
struct Shown {
    id: u32,
    rank: u8,
    access: bool,
    bot: bool,
    country: &'static [u8],
}

/// A name and a password word, and the account that is told of them, or why there is none.
type Login = (&'static [u8], &'static [u8], Result<Shown, LoginFault>);

/// A good file, how many accounts it has that can log in, what is answered to logins, and which names have such an
/// account.
struct File {
    text: &'static [u8],
    count: usize,
    logins: &'static [Login],
    names: &'static [(&'static [u8], bool)],
}

fn is_shown(account: &Account, name: &[u8], word: &[u8], shown: &Shown) -> bool {
    account.name() == name
        && account.password() == word
        && account.id() == shown.id
        && account.rank() == shown.rank
        && account.access() == shown.access
        && account.bot() == shown.bot
        && account.country().as_slice() == shown.country
}

fn answers(book: &AccountBook, login: &Login) -> bool {
    let (name, word, wanted) = login;
    match (book.check(name, word), wanted) {
        (Ok(account), Ok(shown)) => is_shown(account, name, word, shown),
        (Err(told), Err(wanted)) => told == *wanted,
        _ => false,
    }
}

fn show(rt: &impl Abort, book: &AccountBook, file: &File) {
    same(rt, book.len(), file.count);
    same(rt, book.is_empty(), false);
    for login in file.logins {
        same_for(rt, &login.0, answers(book, login), true);
    }
    for (name, is_there) in file.names {
        same_for(rt, name, book.get(name).is_some(), *is_there);
    }
}

fn read(rt: &impl Abort, alloc: Global, file: &File) {
    match AccountBook::from_toml(alloc, file.text) {
        Ok(book) => {
            show(rt, &book, file);
            drop(book);
        }
        Err(_) => fail(rt, "the file is good"),
    }
}

static FIRST: File = File {
    text: THREE,
    count: 3,
    logins: &[
        (
            b"Bert",
            WORD,
            Ok(Shown {
                id: 2,
                rank: 3,
                access: false,
                bot: false,
                country: b"??",
            }),
        ),
        (
            b"Cleo",
            WORD,
            Ok(Shown {
                id: 3,
                rank: 0,
                access: false,
                bot: false,
                country: b"FR",
            }),
        ),
        (b"Anna", NO_PASSWORD, Err(LoginFault::BadPassword)),
        (b"anna", WORD, Err(LoginFault::NoAccount)),
    ],
    names: &[(b"Anna", true), (b"Dora", false)],
};

#[test]
fn reads_a_file_and_checks_logins(rt: HostRuntime) {
    read(&rt, rt.alloc(), &FIRST);
}

/// Adds an account of this number; those of access and of a bot have a rank of 7 and no country.
fn add(book: &mut AccountBook, alloc: Global, id: u32, special: bool) -> Result<(), AccountsError> {
    let (rank, country): (u8, &[u8]) = if special { (7, b"??") } else { (0, b"DE") };
    match Account::new(alloc, b"[AI]_1", WORD, id, rank, special, special, country) {
        Ok(account) => book.add(account),
        Err(refusal) => Err(refusal),
    }
}

/// Of two accounts of one name the first is kept.
fn add_two(rt: &impl Abort, book: &mut AccountBook, alloc: Global) {
    same(rt, add(book, alloc, u32::MAX, true), Ok(()));
    same(
        rt,
        add(book, alloc, 5, false),
        Err(AccountsError::DuplicateName),
    );
    match book.check(b"[AI]_1", WORD) {
        Ok(first) => same(rt, first.id(), u32::MAX),
        Err(_) => fail(rt, "the first is there"),
    }
}

#[test]
fn adds_an_account(rt: HostRuntime) {
    let mut book = AccountBook::new(rt.alloc());
    add_two(&rt, &mut book, rt.alloc());
    drop(book);
}

/// Name, password word, rank and country of accounts, and whether they are accounts. The last words have bits left over
/// in the last digit, no padding, a byte that is no digit, 15 bytes.
static FIELDS: [(&[u8], &[u8], u8, &[u8], bool); 11] = [
    (b"aZ09_[]aZ09_[]aZ09_[", WORD, 7, b"DE", true),
    (b"aZ09_[]aZ09_[]aZ09_[]", WORD, 7, b"DE", false),
    (b"", WORD, 0, b"DE", false),
    (b"a-b", WORD, 0, b"DE", false),
    (b"Anna", WORD, 8, b"DE", false),
    (b"Anna", WORD, 0, b"De", false),
    (b"Anna", WORD, 0, b"DEU", false),
    (b"Anna", b"X03MO1qnZdYdgyfeuILPmR==", 0, b"DE", false),
    (b"Anna", b"X03MO1qnZdYdgyfeuILPmQ", 0, b"DE", false),
    (b"Anna", b"X03MO1qn-dYdgyfeuILPmQ==", 0, b"DE", false),
    (b"Anna", b"X03MO1qnZdYdgyfeuILP", 0, b"DE", false),
];

#[test]
fn refuses_fields_that_break_their_rules(rt: HostRuntime) {
    for (k, (name, word, rank, country, is_good)) in FIELDS.iter().enumerate() {
        let told = Account::new(rt.alloc(), name, word, 1, *rank, false, false, country).err();
        let want = if *is_good { None } else { NO_LIST };
        same_for(&rt, &k, told, want);
    }
}

const NO_LIST: Option<AccountsError> = Some(AccountsError::BadField(0));

const BAD_FIRST: Option<AccountsError> = Some(AccountsError::BadField(1));

static FILES: [(&[u8], Option<AccountsError>); 19] = [
    (b"", None),
    (b"[[account", Some(AccountsError::NotToml)),
    (b"key = '\xff'", Some(AccountsError::NotToml)),
    (b"format = 2", None),
    (b"format = 3", NO_LIST),
    (b"format = 1.0", NO_LIST),
    (b"format = true", NO_LIST),
    (b"account = 1", NO_LIST),
    (b"[account]\nname = 'Anna'", NO_LIST),
    (b"format = 1\ndefault = 1", None),
    (b"format = 2\ndefault = 1", NO_LIST),
    (b"format = 2\n[default]\nrank = 8", NO_LIST),
    (b"format = 2\n[default]\naccess = 1", NO_LIST),
    (b"format = 2\n[default]\nbot = 'no'", NO_LIST),
    (b"format = 2\n[default]\ncountry = 'se'", NO_LIST),
    (b"format = 2\n[default]\ncountry = 1", NO_LIST),
    (b"format = 2\n[default]\nname = 1", None),
    (b"account = [1]", BAD_FIRST),
    (
        b"[[account]]\nname = 'A b'\npassword = 'X03MO1qnZdYdgyfeuILPmQ=='\nid = 1\n",
        BAD_FIRST,
    ),
];

#[test]
fn refuses_files(rt: HostRuntime) {
    for (file, told) in &FILES {
        same_for(&rt, file, refusal(rt.alloc(), file), *told);
    }
}

/// A file of the second format: Dora leaves out what `default` says, Fred does not, and Emil cannot log in.
const SECOND_FORMAT: &[u8] = b"
format = 2

[default]
rank = 2
country = 'SE'

[[account]]
name = 'Dora'
password = 'X03MO1qnZdYdgyfeuILPmQ=='
id = 4

[[account]]
name = 'Emil'
password = 'X03MO1qnZdYdgyfeuILPmQ=='
id = 5
disabled = true

[[account]]
name = 'Fred'
password = 'X03MO1qnZdYdgyfeuILPmQ=='
id = 6
rank = 0
bot = true
country = '??'
disabled = false
";

static SECOND: File = File {
    text: SECOND_FORMAT,
    count: 2,
    logins: &[
        (
            b"Dora",
            WORD,
            Ok(Shown {
                id: 4,
                rank: 2,
                access: false,
                bot: false,
                country: b"SE",
            }),
        ),
        (
            b"Fred",
            WORD,
            Ok(Shown {
                id: 6,
                rank: 0,
                access: false,
                bot: true,
                country: b"??",
            }),
        ),
        (b"Emil", WORD, Err(LoginFault::NoAccount)),
    ],
    names: &[],
};

#[test]
fn reads_the_second_format(rt: HostRuntime) {
    read(&rt, rt.alloc(), &SECOND);
}

/// One account more behind the file of the second format, of a name that is there.
static MORE_OF_A_NAME: [&str; 3] = [
    "[[account]]\nname = 'Emil'\npassword = 'X03MO1qnZdYdgyfeuILPmQ=='\nid = 7\n",
    "[[account]]\nname = 'Emil'\npassword = 'X03MO1qnZdYdgyfeuILPmQ=='\nid = 7\ndisabled = true\n",
    "[[account]]\nname = 'Dora'\npassword = 'X03MO1qnZdYdgyfeuILPmQ=='\nid = 7\ndisabled = true\n",
];

/// The file of the second format with these lines behind it.
fn second_format_with(alloc: Global, lines: &str) -> Result<Vec<u8>, AllocError> {
    let mut file = Vec::from_slice(alloc, SECOND_FORMAT)?;
    file.extend_from_slice(lines.as_bytes())?;
    Ok(file)
}

/// Why the file of the second format is refused with these lines behind it; `Memory` too where there is none to write
/// it in.
fn refusal_behind(alloc: Global, lines: &str) -> Option<AccountsError> {
    match second_format_with(alloc, lines) {
        Ok(file) => refusal(alloc, &file),
        Err(_) => Some(AccountsError::Memory),
    }
}

#[test]
fn refuses_a_second_account_of_a_disabled_name(rt: HostRuntime) {
    for lines in &MORE_OF_A_NAME {
        let told = refusal_behind(rt.alloc(), lines);
        same_for(&rt, lines, told, Some(AccountsError::DuplicateName));
    }
}

/// Lines behind those of a good account, and why the file is refused in the first format and in the second.
static DISABLED_LINES: [(&str, Option<AccountsError>, Option<AccountsError>); 5] = [
    ("disabled = true", None, None),
    ("disabled = 1", None, BAD_FIRST),
    ("disabled = true\nrank = 8", BAD_FIRST, BAD_FIRST),
    (
        "disabled = true\n[[account]]\nname = 'Anna'\npassword = '1B2M2Y8AsgTpgAmY7PhCfg=='\nid = 2",
        Some(AccountsError::DuplicateName),
        Some(AccountsError::DuplicateName),
    ),
    (
        "[[account]]\nname = 'Anna'\npassword = '1B2M2Y8AsgTpgAmY7PhCfg=='\nid = 2\ndisabled = true",
        Some(AccountsError::DuplicateName),
        Some(AccountsError::DuplicateName),
    ),
];

#[test]
fn counts_disabled_accounts(rt: HostRuntime) {
    for (lines, first, second) in &DISABLED_LINES {
        same_for(&rt, lines, refusal_with(rt.alloc(), "1", lines), *first);
        same_for(&rt, lines, refusal_with(rt.alloc(), "2", lines), *second);
    }
}

/// Lines behind those of a good account, and why the file is refused.
static MORE_LINES: [(&str, Option<AccountsError>); 7] = [
    ("", None),
    ("rank = 8", BAD_FIRST),
    ("rank = -1", BAD_FIRST),
    ("bot = 1", BAD_FIRST),
    ("country = 'fr'", BAD_FIRST),
    (
        "[[account]]\nname = 'Bert'",
        Some(AccountsError::BadField(2)),
    ),
    (
        "[[account]]\nname = 'Anna'\npassword = '1B2M2Y8AsgTpgAmY7PhCfg=='\nid = 2",
        Some(AccountsError::DuplicateName),
    ),
];

/// Why a file of this format whose first account has these lines is refused; `Memory` too where there is none to write
/// the file in.
fn refusal_with(alloc: Global, format: &str, lines: &str) -> Option<AccountsError> {
    match format!(in alloc;
        "format = {format}\n[[account]]\nname = 'Anna'\npassword = 'X03MO1qnZdYdgyfeuILPmQ=='\nid = 1\n{lines}"
    ) {
        Ok(file) => refusal(alloc, file.as_bytes()),
        Err(_) => Some(AccountsError::Memory),
    }
}

#[test]
fn refuses_accounts_of_a_file(rt: HostRuntime) {
    for (lines, told) in &MORE_LINES {
        same_for(&rt, lines, refusal_with(rt.alloc(), "1", lines), *told);
    }
}

fn read_fronts(rt: &impl Abort, alloc: Global, file: &[u8]) {
    for len in 0..file.len() {
        let told = refusal(alloc, &file[..len]);
        same_for(rt, &len, told == Some(AccountsError::Memory), false);
    }
}

#[test]
fn each_front_of_a_file_has_an_answer(rt: HostRuntime) {
    read_fronts(&rt, rt.alloc(), THREE);
    read_fronts(&rt, rt.alloc(), SECOND_FORMAT);
}
