//! The two status words of the lobby protocol, and the merges by which a client changes its own.
//!
//! [`merge_user`] gives the [`UserStatus`] of a user who asks for a word by MYSTATUS, and [`merge_battle`] the
//! [`BattleStatus`] of a member who asks by MYBATTLESTATUS.
//!
//! For example (`leaf_tests/src/status_words.rt`):
//!
//! ```rust
//! let bert = UserStatus::of_account(3, false, false);
//! let asked = merge_user(bert, 127);
//! same(&rt, (bert.word(), asked.word()), (12, 15));
//! ```
//!
//! A status word is a number of 32 bits that carries the settings of a user or of a member of a battle. A merge
//! takes from the word that is asked for what is the client's own to set, and keeps its other settings: Bert sets
//! here that he is in game and away, and his rank of 3 stays.
#![tactic(auto)]

mod battle;
mod field;
mod user;

pub use battle::{BattleStatus, merge_battle};
pub use user::{UserStatus, merge_user};
