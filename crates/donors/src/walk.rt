// A walk along the donor of a list on a copy, piece by piece: reference and alleles in turn.
ghost use Rattle.std.specs.Prelude.{◌≡◌, ◌+◌, ◌-◌, ◌≤◌, ◌<◌, ◌^◌};
ghost use Rattle.donors.specs.Table.{most, copy_of};
ghost use Rattle.donors.specs.Walk.{beginning, passed, next_row, next_piece, with_piece};

use crate::table::{MOST, Row, allele_of, takes};

// Where a walk stands: `len` bytes of its piece are left, from `at` on in the text of the list or in the reference. Behind the piece the
// donor goes on at place `place` of the reference, with the rows from `row` on. Where none is left `row` is above their number, and the
// piece is the last: `last_piece` and `next_row` of specs/Walk.antt, and `Stands` of proofs/StandLaws.antt, say it by that number. `text`
// is a bool as in Allele.
#[derive(Clone, Copy)]
pub struct Along {
    pub row: usize,
    pub place: usize,
    pub text: bool,
    pub at: usize,
    pub len: usize,
}

// At the reference's start, before every row, with nothing of a piece left.
pub fn beginning() -> Along
    ensures { result ≡ beginning }
{
    Along {
        row: 0,
        place: 0,
        text: false,
        at: 0,
        len: 0,
    }
}

// The first row from row `from` on that takes its span for list 1 (or 2) on a copy, n or more where none does: `next_row` of
// specs/Walk.antt counts so, and the walk goes on from that number.
fn next_row(
    table: &[Row; MOST],
    n: usize,
    choices: &[u8; MOST],
    first: bool,
    copy: usize,
    from: usize,
) -> usize
    requires { n ≤ most }
    ensures { result ≡ next_row table.now choices.now first (copy_of copy) from (n - from) }
{
    for row in from..n {
        if takes(&table[row], choices[row], first, copy) {
            return row;
        }
    }
    from.max(n)
}

// The next piece of the donor, over a reference of `size` bases.
fn next_piece(
    size: usize,
    table: &[Row; MOST],
    n: usize,
    choices: &[u8; MOST],
    first: bool,
    copy: usize,
    along: Along,
) -> Along
    requires { (n ≤ most)
        × (along.place ≤ size) }
    ensures { result ≡ next_piece table.now choices.now first (copy_of copy) n size along }
{
    let row = next_row(table, n, choices, first, copy, along.row);
    if n <= row {
        return Along {
            row: n + 1,
            place: size,
            text: false,
            at: along.place,
            len: size - along.place,
        };
    }
    let entry = &table[row];
    let start = entry.start as usize;
    if along.place < start {
        return Along {
            row,
            place: start,
            text: false,
            at: along.place,
            len: start - along.place,
        };
    }
    let allele = allele_of(entry, choices[row], copy);
    Along {
        row: row + 1,
        place: start + entry.len as usize,
        text: allele.text,
        at: allele.at as usize,
        len: allele.len as usize,
    }
}

// The same walk, where nothing is left of its piece at the next one.
pub fn with_piece(
    size: usize,
    table: &[Row; MOST],
    n: usize,
    choices: &[u8; MOST],
    first: bool,
    copy: usize,
    along: Along,
) -> Along
    requires { (n ≤ most)
        × (along.place ≤ size) }
    ensures { result ≡ with_piece table.now choices.now first (copy_of copy) n size along }
{
    if along.len == 0 {
        return next_piece(size, table, n, choices, first, copy, along);
    }
    along
}

// Behind the next m bases of the piece.
pub fn past(along: Along, m: usize) -> Along
    requires { (m ≤ along.len)
        × (along.at + m < 2 ^ 64) }
    ensures { result ≡ passed along m }
{
    Along {
        row: along.row,
        place: along.place,
        text: along.text,
        at: along.at + m,
        len: along.len - m,
    }
}
