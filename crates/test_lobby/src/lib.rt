//! What crates of tests share: users with their lines, lobbies of them, and a link in memory.
//!
//! A test calls [`new_lobby`] for a lobby of Anna, Bert and Cleo, and makes a [`MemoryLink`] where turns want a link.
//!
//! For example (`lobby_tests/src/turns/side_by_side.rt`):
//!
//! ```rust
//! /// The link of a client that sends `PING`.
//! fn pinging(alloc: Global) -> Result<MemoryLink, AllocError> {
//!     let input = Vec::from_slice(alloc, b"PING\n")?;
//!     Ok(MemoryLink::new(alloc, input, 9, 100))
//! }
//! ```
//!
//! A read of this link gives up to 9 bytes, and a write takes up to 100. After a turn `MemoryLink::output` has what the
//! client was told: its greeting and `PONG`.
//!
//! Two more users look on ([`book_with_onlookers`]), and [`crowd_lobby`] makes a lobby of a crowd.
#![tactic(auto)]

mod crowd;
mod link;
mod lobbies;
mod texts;
mod users;

pub use crowd::{HOME, PIECE, READS, crowd_lobby, read_some, say, use_buffers_up};
pub use link::MemoryLink;
pub use lobbies::{
    CROWD, book, book_with_crowd, book_with_onlookers, crowd_name, lobby_of, new_lobby, read,
    settings,
};
pub use texts::{Text, written};
pub use users::{
    ANNA_IS_IN, ANNA_LOGS_IN, ANNA_SAYS, BERT_COMES, BERT_IS_IN, BERT_LOGS_IN, BERT_SAYS,
    CLEO_LOGS_IN, CROWD_COMES_IN, GREETING, WORD,
};
