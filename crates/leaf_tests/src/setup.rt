//! The file of settings and what reads it.

mod addresses;
mod fields;
mod settings;
