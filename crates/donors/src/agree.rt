// Are the donors of the two lists equal on a copy? Both are walked along side by side, piece against piece, and neither is built.
ghost use Rattle.std.specs.Prelude.{◌≡◌, ◌+◌, ◌≤◌, min, length};
ghost use Rattle.bases.specs.Letter.{bases_of};
ghost use Rattle.bases.specs.Same.{agree?};
ghost use Rattle.bases.specs.Stretch.{stretch};
ghost use Rattle.donors.specs.Agree.{CaseReady, CaseApart, case_agrees?};
ghost use Rattle.donors.specs.Table.{bases_from, copy_of};

use crate::table::{MOST, Row};
use crate::walk::{Along, beginning, past, with_piece};
use bases::reference::{base_count, part_agrees, stretches_agree};
use bases::same::parts_agree;

// Are the next m bases of a piece of list 1's donor those of a piece of list 2's?
fn pieces_agree(reference: &[u8], first: &[u8], second: &[u8], a: Along, b: Along, m: usize) -> bool
    requires { (a.at + m ≤ length (bases_from (bases_of reference.now) first.now a.text))
        × (b.at + m ≤ length (bases_from (bases_of reference.now) second.now b.text)) }
    ensures { result ≡ agree? (stretch (bases_from (bases_of reference.now) first.now a.text) a.at m)
        (stretch (bases_from (bases_of reference.now) second.now b.text) b.at m) }
{
    if a.text {
        if b.text {
            return parts_agree(first, a.at, second, b.at, m);
        }
        return part_agrees(reference, b.at, first, a.at, m);
    }
    if b.text {
        return part_agrees(reference, a.at, second, b.at, m);
    }
    stretches_agree(reference, a.at, b.at, m)
}

// What the donors of two lists are made of: the reference, the texts of the lists, and the first n rows of a table of their entries.
#[derive(Clone, Copy)]
pub struct Case<'a> {
    pub reference: &'a [u8],
    pub first: &'a [u8],
    pub second: &'a [u8],
    pub table: &'a [Row; MOST],
    pub n: usize,
}

// Are the donors of the two lists on a copy equal, with the case's entries and their choices? The first two bases that differ end the
// walk. Where neither list has an entry left, what is left of the reference is the same exactly if both walks stand at one place.
pub fn donors_agree(case: &Case, choices: &[u8; MOST], copy: usize) -> bool
    requires { CaseReady case.now
        × CaseApart case.now choices.now (copy_of copy) }
    ensures { result ≡ case_agrees? case.now choices.now (copy_of copy) }
{
    let n = case.n;
    let size = base_count(case.reference);
    let mut a = beginning();
    let mut b = beginning();
    // No iterator over pieces: a turn takes as much of both walks as the shorter of their pieces has left, and neither goes piece by piece.
    loop {
        let x = with_piece(size, case.table, n, choices, true, copy, a);
        let y = with_piece(size, case.table, n, choices, false, copy, b);
        if n < x.row && n < y.row {
            return x.at == y.at;
        }
        let m = x.len.min(y.len);
        if m == 0 {
            return false;
        }
        if !pieces_agree(case.reference, case.first, case.second, x, y, m) {
            return false;
        }
        a = past(x, m);
        b = past(y, m);
    }
}
