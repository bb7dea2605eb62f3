//! Password words.

ghost use Rattle.std.specs.Prelude.{◌≡◌};
ghost use Rattle.account_book.specs.Password.{word_of};

use base64::engine::general_purpose::STANDARD;
use md5::{Digest, Md5};

/// The word that stands for a password in LOGIN and in the file of accounts: the base64 text
/// (RFC 4648, with padding) of the password's MD5 (RFC 1321).
///
/// The word is no secret: it travels in the clear, and who has it can log in with it.
pub fn password_word(password: &[u8]) -> [u8; 24]
    ensures { result ≡ word_of password.now }
{
    let digest: [u8; 16] = Md5::digest(password);
    let mut word = [0u8; 24];
    let _ = STANDARD.encode_slice(&digest, &mut word);
    word
}
