//! The word of a password.

ghost use Rattle.std.specs.Prelude.{◌≡◌, nat_eq, length, if◌then◌else◌};
ghost use Rattle.account_book.specs.Password.{word_of};
ghost use Rattle.lobby_lines.specs.Answers.{ok, no_room};

use account_book::password_word;
use lobby_lines::{NO_ROOM, OK};

/// The word that stands for a password in LOGIN, as `password_word`: `OK`. `NO_ROOM` where `word` is not 24 bytes long,
/// and then nothing changes.
#[unsafe(no_mangle)]
pub extern "C" fn lobby_password_word(password: &[u8], word: &mut [u8]) -> u32
    ensures status { result ≡ (if nat_eq (length word.old) 24 then ok else no_room) }
    ensures made { result ≡ ok → word.new ≡ word_of password.now }
    ensures kept { result ≡ no_room → word.new ≡ word.old }
{
    let made = password_word(password);
    if word.len() != made.len() {
        return NO_ROOM;
    }
    word.copy_from_slice(&made);
    OK
}
