//! Workers at one desk, and a connection's turns over links in memory: what a client that is served reads, and how its
//! turns end.

mod alone;
mod desk;
mod desks;
mod hostile;
mod plays;
mod serving;
mod side_by_side;
