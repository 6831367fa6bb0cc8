// The lines of a text, one at a time from the top.
ghost use Rattle.std.specs.Prelude.{◌≡◌};
ghost use Rattle.std.specs.Iterator.{YieldsFirstRef, item_count};
ghost use Rattle.vcf.specs.Lines.{lines_left};
ghost use Rattle.vcf.specs.List.{lines_of};

use fields::bytes::{LF, find};

// A walk over lines: what is left of the text.
#[derive(Clone, Copy)]
pub struct Lines<'a> {
    rest: &'a [u8],
}

// A walk over the lines of a text, each without its LF.
pub fn lines_of(text: &[u8]) -> Lines
    ensures { lines_left result ≡ lines_of text.now }
{
    Lines { rest: text }
}

impl<'a> Iterator for Lines<'a> {
    type Item = &'a [u8];

    ghost next_gives = { YieldsFirstRef lines_left };

    ghost remaining = { item_count lines_left };

    fn next(&mut self) -> Option<&'a [u8]> {
        if self.rest.is_empty() {
            return None;
        }
        let end = find(self.rest, 0, LF);
        let line = &self.rest[..end];
        let behind = (end + 1).min(self.rest.len());
        self.rest = &self.rest[behind..];
        Some(line)
    }
}
