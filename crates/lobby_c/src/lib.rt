//! The C library for clients: a view of the lobby with its tables, and lines read and printed.
//!
//! A program makes a view by [`lobby_view_new`], feeds it each piece that it reads by [`lobby_view_feed`], and then
//! asks for tables of what the client knows.
//!
//! For example (`examples/battles.c`):
//!
//! ```text
//! if (lobby_view_new(&view) != LOBBY_OK) fail("no memory");
//! uint8_t piece[4096];
//! size_t folded = 0;
//! for (int is_over = 0; !is_over;) {
//!   ssize_t length = read(at, piece, sizeof piece);
//!   if (length <= 0) fail("the server ended the connection");
//!   if (lobby_view_feed(&view, piece, (size_t)length, &folded) != LOBBY_OK) fail("no memory, or a line is too long");
//!   is_over = is_logged_in(piece, (size_t)length);
//! }
//! ```
//!
//! Then `print_battles` asks the view for its tables. `include/lobby.h` declares all functions and says what a caller
//! owes. The program keeps the view.
#![tactic(auto)]

mod lines;
mod password;
mod room;
mod slot;
mod tables;
mod view;
