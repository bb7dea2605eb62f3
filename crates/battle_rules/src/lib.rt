//! What a user may do in battles and their rooms, as one function for each command.
//!
//! Such a rule takes an [`Issuer`], which is the user with what the rule may look at, and gives a change or a refusal.
//!
//! For example (`rows/battles/joins_refused.row`):
//!
//! ```text
//! send 2 JOINBATTLE 1 x\n
//! all 2
//! show 1
//! show 2
//! 2> JOINBATTLEFAILED Wrong password
//! show 3
//! ```
//!
//! Client 2 gives a wrong password. It alone is told so, and nothing changes.
//!
//! A rule reads like its equation in the plain lobby. First its guards find a thing or refuse, then it tells, and last
//! it names a change. The crate has over 1,500 lines, since the rules are many and short, and no guard is of use
//! without them.
#![tactic(auto)]

pub mod battle_guards;
pub mod battles;
mod issuer;
pub mod joining;
mod refusal;
pub mod rooms;

pub use issuer::Issuer;
pub use refusal::{Refusal, Stop, or_refuse, refuse_if};
