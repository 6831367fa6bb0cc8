// Does a choice for the next entry overlap an earlier one of its list? Overlap is judged on each copy, by what takes room there. Entries
// stand in merged order: so the next one overlaps none exactly if it starts at the end of the last one there, or behind it.
ghost use Rattle.std.specs.Prelude.{◌&&◌, ◌≡◌, ◌≤◌, ◌<◌};
ghost use Rattle.donors.specs.Table.{most, choice_of, copy_of};
ghost use Rattle.matching.specs.Answer.{can_beat?};
ghost use Rattle.matching.specs.Fits.{end_before, fits_on?, fits?};

use crate::answer::{Best, can_beat};
use donors::table::{COPY_0, COPY_1, MOST, Row, has_room, takes};

// Where the last row before row `at` ends that takes its span for list 1 (or 2) on a copy: 0 where none does, as `end_before`
// of specs/Fits.antt has it.
fn end_before(
    table: &[Row; MOST],
    choices: &[u8; MOST],
    first: bool,
    copy: usize,
    at: usize,
) -> usize
    requires { at ≤ most }
    ensures { result ≡ end_before table.now choices.now first (copy_of copy) at }
{
    for i in (0..at).rev() {
        let row = &table[i];
        if takes(row, choices[i], first, copy) {
            return row.start as usize + row.len as usize;
        }
    }
    0
}

// Does row `at` with this choice overlap no earlier row of its list on a copy?
fn fits_on(table: &[Row; MOST], choices: &[u8; MOST], at: usize, choice: u8, copy: usize) -> bool
    requires { at < most }
    ensures { result ≡ fits_on? table.now choices.now at (choice_of choice) (copy_of copy) }
{
    let row = &table[at];
    !has_room(row, choice, copy)
        || end_before(table, choices, row.first, copy, at) <= row.start as usize
}

// The same on both copies.
pub fn fits(table: &[Row; MOST], choices: &[u8; MOST], at: usize, choice: u8) -> bool
    requires { at < most }
    ensures { result ≡ fits? table.now choices.now at (choice_of choice) }
{
    fits_on(table, choices, at, choice, COPY_0) && fits_on(table, choices, at, choice, COPY_1)
}

// Is that choice tried, where no answer below it scores more than `top`? It is where such an answer would be better than the best so far,
// and it fits.
pub fn is_tried(
    table: &[Row; MOST],
    choices: &[u8; MOST],
    at: usize,
    choice: u8,
    top: usize,
    best: Option<Best>,
) -> bool
    requires { at < most }
    ensures { result ≡ can_beat? top best && fits? table.now choices.now at (choice_of choice) }
{
    can_beat(top, best) && fits(table, choices, at, choice)
}
