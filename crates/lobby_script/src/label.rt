//! What a script's labels stand for.

/// The client of a label.
#[derive(Clone, Copy)]
pub struct Label {
    /// Its number; none where the lobby refused the connect.
    pub client: Option<u64>,
    /// How many of the bytes that were put to it were shown.
    pub shown: usize,
}
