// The call `count`: what the marks of two lists count.
ghost use Rattle.std.specs.Prelude.{◌≡◌};
ghost use Rattle.marks.specs.Counts.{Few};
ghost use Rattle.card.specs.Answer.{answer, refused_answer};
ghost use Rattle.card.specs.Count.{counted_of, no_counts, counted};

use crate::lists::{LEAST, lists_refused};
use crate::refusal::Refusal;
use marks::count::{Counts, count_lists};

// What is answered: the four numbers of a refusal, or zeros; then how many entries of list 1 are matched, unmatched and undecided, and how
// many of list 2.
#[repr(C)]
#[derive(Clone, Copy, Default)]
pub struct Counted {
    pub number: u32,
    pub list: u32,
    pub line: u32,
    pub place: u32,
    pub matched1: u32,
    pub unmatched1: u32,
    pub undecided1: u32,
    pub matched2: u32,
    pub unmatched2: u32,
    pub undecided2: u32,
}

// The answer of a refused call: the four numbers of the refusal, and six zeros.
impl From<Refusal> for Counted {
    ghost from_gives = { λ refusal answer. answer ≡ counted_of (refused_answer refusal) no_counts };

    fn from(refusal: Refusal) -> Counted {
        Counted {
            number: refusal.number,
            list: refusal.list,
            line: refusal.line,
            place: refusal.place,
            ..Counted::default()
        }
    }
}

// The answer with these counts.
fn give(counts: Counts) -> Counted
    requires { Few counts.first
        × Few counts.second }
    ensures { result ≡ counted_of (answer 0 0 0 0 0) counts }
{
    let Counts { first, second } = counts;
    Counted {
        matched1: first.matched as u32,
        unmatched1: first.unmatched as u32,
        undecided1: first.undecided as u32,
        matched2: second.matched as u32,
        unmatched2: second.unmatched as u32,
        undecided2: second.undecided as u32,
        ..Counted::default()
    }
}

// Counts the marks of two lists, of which there have to be 1,024. Rows: 1; 2; list 1; list 2. A byte that is none of `+`, `-`, `0` and `?`
// is counted nowhere, and bytes behind the entries are not looked at. Refused: six zeros.
pub fn count(reference: &[u8], name: &[u8], first: &[u8], second: &[u8], marks: &[u8]) -> Counted
    ensures { result ≡ counted reference.now name.now first.now second.now marks.now }
{
    if let Err(refusal) = lists_refused(reference, name, first, second, marks.len() < LEAST) {
        return refusal.into();
    }
    give(count_lists(first, second, marks))
}
