//! Finding a command word.

ghost use Rattle.std.specs.Prelude.{◌≡◌};
ghost use Rattle.reply_grammar.specs.Lines.{named};

use crate::table::words_of_rows;
use reply_kinds::CommandWord;
use reply_printer::with_replies;

// Written by tools/protocol.py of protocol/replies.toml: count.
const ALL: [CommandWord; 47] = with_replies!(words_of_rows());
// End of what is written: count.

/// The command word that prints so.
#[tactic(auto, using(crate::proofs::Named::named_same))]
pub(crate) fn named(word: &[u8]) -> Option<CommandWord>
    ensures { result ≡ named word.now }
{
    let command = likely(word);
    if word == command.text() {
        return Some(command);
    }
    searched(word)
}

/// The word that comes most among those of this length and these letters. It is a guess, and compared.
fn likely(word: &[u8]) -> CommandWord {
    match word.len() {
        6 => CommandWord::Joined,
        7 => CommandWord::AddUser,
        10 => CommandWord::LeftBattle,
        12 => match (word[0], word[6]) {
            (b'C', _) => CommandWord::ClientStatus,
            (b'J', _) => CommandWord::JoinedBattle,
            (_, b'O') => CommandWord::BattleOpened,
            _ => CommandWord::BattleClosed,
        },
        16 => CommandWord::UpdateBattleInfo,
        18 => CommandWord::ClientBattleStatus,
        _ => CommandWord::Said,
    }
}

#[tactic(auto, unfolding(crate::specs::Lines::named))]
fn searched(word: &[u8]) -> Option<CommandWord>
    ensures { result ≡ named word.now }
{
    ALL.iter().copied().find(|command| word == command.text())
}
