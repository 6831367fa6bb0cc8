// What a lot is answered with.
ghost use Rattle.std.specs.Prelude.{◌≡◌};
ghost use Rattle.lot.specs.Lot.{row_of, refused_lot, given_lot, answer_of};
ghost use Rattle.lot.specs.Sum.{Bounded};
ghost use Rattle.lot.specs.Run.{most_runs};

use crate::run::Run;
use crate::share::{Share, share_of};
use crate::sum::Sum;

// Where it is refused: the number, list, line and place of the refusal, and zeros. Else these four are 0, the totals of the six counts, the
// entries of the truth and of what was called, and recall and precision. The four stand beside these, not in a Result, since the definition
// `lot_of` and the theorem `lot_answered_iff` name them so.
#[derive(Clone, Copy, Default)]
pub struct Lot {
    pub number: u32,
    pub list: u32,
    pub line: u32,
    pub place: u32,
    pub total: Run,
    pub truth: u32,
    pub called: u32,
    pub recall: Share,
    pub precision: Share,
}

// The most runs of a lot.
pub const MOST_RUNS: usize = 256;

// No run, or more than 256.
const WRONG_RUNS: u32 = 30;

// A run's counts exceed 512 in a list.
const LARGE_RUN: u32 = 31;

// The lot is refused, for this row.
fn refuse(number: u32) -> Lot
    ensures { result ≡ refused_lot number }
{
    Lot {
        number,
        ..Lot::default()
    }
}

// The lot is answered, with these totals.
fn give(total: Run) -> Lot
    requires { Bounded most_runs total }
    ensures { result ≡ given_lot total }
{
    let truth = total.matched1 + total.unmatched1 + total.undecided1;
    let called = total.matched2 + total.unmatched2 + total.undecided2;
    let decided_truth = truth - total.undecided1;
    let decided_called = called - total.undecided2;
    let recall = share_of(total.matched1, decided_truth);
    let precision = share_of(total.matched2, decided_called);
    Lot {
        total,
        truth,
        called,
        recall,
        precision,
        ..Lot::default()
    }
}

// The answer for n runs that add up to this.
pub fn answer_of(n: usize, sum: Sum) -> Lot
    requires { Bounded most_runs sum.total }
    ensures { result ≡ answer_of (row_of n sum.large) sum.total }
{
    if n == 0 || MOST_RUNS < n {
        return refuse(WRONG_RUNS);
    }
    if sum.large {
        return refuse(LARGE_RUN);
    }
    give(sum.total)
}
