// The search for the best choices of a cluster: entry by entry, each choice followed by rank over all remaining entries.
ghost use Rattle.std.specs.Prelude.{◌≡◌, ◌-◌, ◌≤◌, T};
ghost use Rattle.bases.specs.Letter.{bases_of};
ghost use Rattle.donors.specs.Agree.{Ready, CaseReady, case_entries};
ghost use Rattle.donors.specs.Table.{most, variants_from, choices_from};
ghost use Rattle.matching.specs.Answer.{can_beat?, improved};
ghost use Rattle.matching.specs.Made.{Made, answer_from, best_answer, weights_to};

use crate::answer::{Best, can_beat};
use crate::fits::{fits, is_tried};
use donors::agree::{Case, donors_agree};
use donors::table::{COPY_0, COPY_1, MOST, Row};

// The best so far, or the best legal choices that go on from those made, with `left` of the n entries left, where those score more.
// No answer scores more than `top`, the score with every entry left chosen: where that is no more than the best so far has, nothing is
// tried. Nor is anything below a choice that overlaps an earlier one of its list. Behind the choices made the array has `0`.
// What a level keeps is what differs from level to level: this function's frame is on the stack thirteen times.
fn search(
    case: &Case,
    left: usize,
    mut choices: [u8; MOST],
    top: usize,
    mut best: Option<Best>,
) -> Option<Best>
    requires { CaseReady case.now
        × (left ≤ case.now.n)
        × Made (case_entries case.now) (choices_from choices 0 (case.now.n - left)) choices top
        × T (can_beat? top best) }
    ensures { result ≡ improved best (answer_from (bases_of case.now.reference.now) (case_entries case.now) left
        (choices_from choices 0 (case.now.n - left))) }
{
    if left == 0 {
        if donors_agree(case, &choices, COPY_0) && donors_agree(case, &choices, COPY_1) {
            best = Some(Best {
                score: top,
                choices,
            });
        }
        return best;
    }
    let at = case.n - left;
    if fits(case.table, &choices, at, b'+') {
        choices[at] = b'+';
        best = search(case, left - 1, choices, top, best);
        choices[at] = b'0';
    }
    if is_tried(case.table, &choices, at, b'-', top, best) {
        choices[at] = b'-';
        best = search(case, left - 1, choices, top, best);
        choices[at] = b'0';
    }
    let rest = top - case.table[at].weight as usize;
    if can_beat(rest, best) {
        best = search(case, left - 1, choices, rest, best);
    }
    best
}

// The weights of the first n rows, summed.
fn sum_weights(table: &[Row; MOST], n: usize) -> usize
    requires { n ≤ most }
    ensures { result ≡ weights_to table.now n }
{
    let mut sum: usize = 0;
    for row in &table[..n] {
        sum += row.weight as usize;
    }
    sum
}

// The best choices for the first n entries of the table: the highest score, and among equals the first in dictionary order. Behind the n
// choices the array has `0`. There is one: to leave every entry out is legal.
pub fn best_choices(
    reference: &[u8],
    first: &[u8],
    second: &[u8],
    table: &[Row; MOST],
    n: usize,
) -> Best
    requires { Ready (bases_of reference.now) first.now second.now table.now n }
    ensures { result ≡ best_answer (bases_of reference.now)
        (variants_from (bases_of reference.now) first.now second.now table.now 0 n) }
{
    let case = Case {
        reference,
        first,
        second,
        table,
        n,
    };
    let top = sum_weights(table, n);
    search(&case, n, [b'0'; MOST], top, None).unwrap()
}
