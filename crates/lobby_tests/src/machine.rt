//! The lobby machine: whom it wakes, who changed, and how a client ends and is cut.

mod clients;
mod dirty;
mod plays;
