// A control run, by the six counts that the card makes from its marks.
ghost use Rattle.std.specs.Prelude.{◌≡◌};
ghost use Rattle.lot.specs.Run.{run_of, above?, large?};

use card::count::Counted;
use records::record::MOST_RECORDS;

// List 1 is the truth, list 2 what the run called. Six fields, not three twice: the definitions here and in lot_report name them.
#[derive(Clone, Copy, Default)]
pub struct Run {
    pub matched1: u32,
    pub unmatched1: u32,
    pub undecided1: u32,
    pub matched2: u32,
    pub unmatched2: u32,
    pub undecided2: u32,
}

// The run whose six counts the call `count` answered. A refused call has counted nothing, and its six zeros are no run's: none is made
// of them, since a lot would not tell it from a run without entries.
pub fn run_of(counted: Counted) -> Run
    requires { counted.number ≡ 0 }
    ensures { result ≡ run_of counted }
{
    Run {
        matched1: counted.matched1,
        unmatched1: counted.unmatched1,
        undecided1: counted.undecided1,
        matched2: counted.matched2,
        unmatched2: counted.unmatched2,
        undecided2: counted.undecided2,
    }
}

// Are there more entries than a list has? The counts may be of any size, so they are added with room for all of them.
fn is_above(matched: u32, unmatched: u32, undecided: u32) -> bool
    ensures { result ≡ above? matched unmatched undecided }
{
    MOST_RECORDS < matched as usize + unmatched as usize + undecided as usize
}

// Do the run's counts exceed 512 in a list? That is row 31.
pub fn is_large(run: Run) -> bool
    ensures { result ≡ large? run }
{
    is_above(run.matched1, run.unmatched1, run.undecided1)
        || is_above(run.matched2, run.unmatched2, run.undecided2)
}
