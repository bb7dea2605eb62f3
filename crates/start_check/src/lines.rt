//! Where a key stands in the text of a file of TOML, by a plain reading of its lines: what stands over several lines is
//! not told apart. So a line is where to look, and nothing is promised of it.

use std::alloc::{AllocError, Global};

/// A part of a file in which keys stand.
#[derive(Clone, Copy, PartialEq, Eq, Debug)]
pub enum Part {
    /// All above the first header.
    Head,
    /// The table `default`.
    Default,
    /// The account with this number, counted from 1.
    Account(usize),
    /// A part of another name.
    Other,
}

/// The lines of a file, and which of them are headers.
#[derive(Drop)]
pub struct Lines<'a> {
    lines: Vec<&'a str>,
    /// The place of each account's header, from 0.
    accounts: Vec<usize>,
    /// The place of the header of `default`.
    default: Option<usize>,
}

/// The part whose header a line is, if it is one, behind so many accounts.
fn header(line: &str, accounts: usize) -> Option<Part> {
    let line = match line.split_once('#') {
        Some((line, _)) => line.trim(),
        None => line.trim(),
    };
    if let Some(rest) = line.strip_prefix("[[") {
        return match rest.strip_suffix("]]") {
            Some(name) if name.trim() == "account" => Some(Part::Account(accounts.saturating_add(
                1,
            ))),
            Some(_) => Some(Part::Other),
            None => None,
        };
    }
    match line.strip_prefix('[')?.strip_suffix(']')?.trim() {
        "default" => Some(Part::Default),
        _ => Some(Part::Other),
    }
}

/// A word without the quotes round it.
fn unquoted(word: &str) -> &str {
    for quote in ["\"", "'"] {
        if let Some(rest) = word.strip_prefix(quote) {
            if let Some(inner) = rest.strip_suffix(quote) {
                return inner;
            }
        }
    }
    word
}

/// The key that a line gives a value.
fn key_of(line: &str) -> Option<&str> {
    let (key, _) = line.split_once('=')?;
    Some(unquoted(key.trim()))
}

impl<'a> Lines<'a> {
    /// The lines of a text.
    pub fn of(alloc: Global, text: &'a str) -> Result<Lines<'a>, AllocError> {
        let mut lines = Vec::new(alloc);
        let mut accounts = Vec::new(alloc);
        let mut default = None;
        for line in text.lines() {
            match header(line, accounts.len()) {
                Some(Part::Account(_)) => accounts.push(lines.len())?,
                Some(Part::Default) => default = Some(lines.len()),
                _ => {}
            }
            lines.push(line)?;
        }
        Ok(Lines {
            lines,
            accounts,
            default,
        })
    }

    /// The place of the header of a part, from 0.
    fn header_of(&self, part: Part) -> Option<usize> {
        match part {
            Part::Account(number) => self.accounts.get(number.checked_sub(1)?).copied(),
            Part::Default => self.default,
            Part::Head | Part::Other => None,
        }
    }

    /// The line, from 1, on which a key stands among those from a place on, up to the next header.
    fn key_from(&self, first: usize, key: &str) -> Option<usize> {
        for (k, line) in self.lines.iter().enumerate().skip(first) {
            if header(line, 0).is_some() {
                return None;
            }
            if key_of(line) == Some(key) {
                return Some(k.saturating_add(1));
            }
        }
        None
    }

    /// The line, from 1, of a part: that of its header, or the first where it has none.
    pub fn line_of(&self, part: Part) -> usize {
        match self.header_of(part) {
            Some(place) => place.saturating_add(1),
            None => self.whole(part),
        }
    }

    /// The line of a part without a header: that of the key whose value has it, or the first.
    fn whole(&self, part: Part) -> usize {
        let key = match part {
            Part::Account(_) => "account",
            Part::Default => "default",
            Part::Head | Part::Other => return 1,
        };
        self.key_from(0, key).unwrap_or(1)
    }

    /// The line, from 1, of a key of a part; where it does not stand there, that of the part.
    pub fn line_of_key(&self, part: Part, key: &str) -> usize {
        let first = match part {
            Part::Head => Some(0),
            _ => self.header_of(part).map(|place| place.saturating_add(1)),
        };
        match first.and_then(|first| self.key_from(first, key)) {
            Some(line) => line,
            None => self.line_of(part),
        }
    }

    /// The line, from 1, of a header of this name, as `[[accounts]]`, or of a key of the file.
    pub fn line_of_name(&self, name: &str) -> usize {
        if let Some(line) = self.key_from(0, name) {
            return line;
        }
        for (k, line) in self.lines.iter().enumerate() {
            let head = line.trim().trim_start_matches('[').trim();
            if let Some(rest) = head.strip_prefix(name) {
                if rest.trim().starts_with(']') || rest.starts_with('.') {
                    return k.saturating_add(1);
                }
            }
        }
        1
    }
}
