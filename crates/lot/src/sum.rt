// Runs added up, one by one.
ghost use Rattle.std.specs.Prelude.{◌≡◌};
ghost use Rattle.lot.specs.Sum.{no_sum, add_run, HasRoom};

use crate::run::{Run, is_large};

// The counts of the runs so far that are not too large, added up, and whether one was too large: `add_run` of specs/Sum.antt adds on behind
// one that was.
#[derive(Clone, Copy, Default)]
pub struct Sum {
    pub total: Run,
    pub large: bool,
}

// The sum of no run.
pub fn no_sum() -> Sum
    ensures { result ≡ no_sum }
{
    Sum::default()
}

// The sum with one run more.
pub fn add_run(sum: Sum, run: Run) -> Sum
    requires { HasRoom sum.total }
    ensures { result ≡ add_run sum run }
{
    if is_large(run) {
        return Sum { large: true, ..sum };
    }
    let total = sum.total;
    Sum {
        total: Run {
            matched1: total.matched1 + run.matched1,
            unmatched1: total.unmatched1 + run.unmatched1,
            undecided1: total.undecided1 + run.undecided1,
            matched2: total.matched2 + run.matched2,
            unmatched2: total.unmatched2 + run.unmatched2,
            undecided2: total.undecided2 + run.undecided2,
        },
        ..sum
    }
}
