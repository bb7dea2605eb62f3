//! What the trials share: the ways to refuse memory, and what is noted of that.

pub(crate) mod counted;
pub(crate) mod deeds;
mod hog;
pub(crate) mod notes;
pub(crate) mod refuser;
