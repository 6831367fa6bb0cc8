// The lot: the totals of 1 to 256 control runs, with recall and precision. No call has a `requires`: what cannot be answered is refused.
ghost use Rattle.std.specs.Prelude.{◌≡◌, ◌≤◌, length};
ghost use Rattle.lot.specs.Lot.{lot_of, lot_of_first};
ghost use Rattle.lot.specs.Sum.{runs_read};

use crate::answer::{Lot, MOST_RUNS, answer_of};
use crate::run::Run;
use crate::sum::{add_run, no_sum};

// How many of n runs are added up: none where there are too many.
fn runs_read(n: usize) -> usize
    ensures { result ≡ runs_read n }
{
    if MOST_RUNS < n { 0 } else { n }
}

// The lot of n runs, the first of which are lent, as many as are added up.
fn lot_of_lent(runs: &[Run], n: usize) -> Lot
    requires { runs_read n ≤ length runs.now }
    ensures { result ≡ lot_of_first n runs.now }
{
    let mut sum = no_sum();
    for run in &runs[..runs_read(n)] {
        sum = add_run(sum, *run);
    }
    answer_of(n, sum)
}

// The lot of the runs lent.
pub fn lot(runs: &[Run]) -> Lot
    ensures { result ≡ lot_of runs.now }
{
    lot_of_lent(runs, runs.len())
}

// The same for programs: the lot of n runs, the first of which stand in an array, as many as it has room for. The
// number stays beside the array, since it may be more than that: then row 30 holds.
pub fn lot_of_first(runs: [Run; MOST_RUNS], n: usize) -> Lot
    ensures { result ≡ lot_of_first n runs }
{
    lot_of_lent(&runs, n)
}
