//! The lines of a script.

ghost use Rattle.std.specs.Prelude.{◌≡◌};
ghost use Rattle.std.specs.Iterator.{YieldsFirstRef, item_count};
ghost use Rattle.lobby_script.specs.Lines.{lines_left, lines_of};

use proxy_line::part_at;

/// Yields the parts of a script between its line feeds: behind a last line feed stands one empty
/// part more.
#[derive(Drop)]
pub struct Lines<'a> {
    rest: Option<&'a [u8]>,
}

impl<'a> Lines<'a> {
    /// The lines of a script, of which all are still to come.
    pub fn of(script: &'a [u8]) -> Lines<'a>
        ensures { lines_left result.rest ≡ lines_of script.now }
    {
        Lines { rest: Some(script) }
    }
}

impl<'a> Iterator for Lines<'a> {
    type Item = &'a [u8];

    ghost next_gives = { YieldsFirstRef (λ s. lines_left s.rest) };

    ghost remaining = { item_count (λ s. lines_left s.rest) };

    fn next(&mut self) -> Option<&'a [u8]> {
        let text = self.rest?;
        match part_at(text, b'\n') {
            Some((line, behind)) => {
                self.rest = Some(behind);
                Some(line)
            }
            None => {
                self.rest = None;
                Some(text)
            }
        }
    }
}
