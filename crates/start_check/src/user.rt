//! As whom the program runs, by what the system's files say.

use std::fs;
use std::rt::Files;

/// The text of a file of the system, if it can be read.
fn text_at<R: Files + AllocGlobal>(rt: &R, path: &str) -> Option<String> {
    fs::read_to_string(rt, path).ok()
}

/// The number of the user by whose rights a process acts, in the text of its file `status`.
fn number_in(status: &str) -> Option<u32> {
    for line in status.lines() {
        if let Some(rest) = line.strip_prefix("Uid:") {
            let word = rest.split_whitespace().nth(1)?;
            return word.parse::<u32>().ok();
        }
    }
    None
}

/// The name of the user with a number, in the text of a list of users.
fn name_in(users: &str, number: u32) -> Option<&str> {
    for line in users.lines() {
        let mut words = line.split(':');
        let (name, _, word) = (words.next(), words.next(), words.next());
        if word.and_then(|word| word.parse::<u32>().ok()) == Some(number) {
            return name;
        }
    }
    None
}

/// Says as whom the program runs, if that can be known.
pub fn tell_user<R: Files + Print + AllocGlobal>(rt: &R) {
    let Some(status) = text_at(rt, "/proc/self/status") else {
        return;
    };
    let Some(number) = number_in(status.as_str()) else {
        return;
    };
    let users = text_at(rt, "/etc/passwd");
    let name = users
        .as_ref()
        .and_then(|users| name_in(users.as_str(), number));
    let _ = match name {
        Some(name) => println!(rt; "user: tried as {name}, number {number}"),
        None => println!(rt; "user: tried as number {number}"),
    };
}
