// The lines of runs.tsv, read.
ghost use Rattle.std.specs.Prelude.{◌≡◌, ◌≤◌, T};
ghost use Rattle.fields.specs.Field.{field};
ghost use Rattle.vcf.specs.List.{lines_of};
ghost use Rattle.lot_report.specs.Count.{count_of};
ghost use Rattle.lot_report.specs.Run.{headed?, counts_of_run, run?, run_on, bad_run};

use crate::count::{is_count, read_count};
use bases::bytes::same_bytes;
use fields::bytes::{LF, TAB, find};
use fields::field::{field_from, skip_fields};
use lot::run::Run;
use vcf::lines::lines_of;

// How many counts a run has.
const COUNTS_OF_RUN: usize = 6;

// Is line 1 the heading?
pub fn is_headed(text: &[u8]) -> bool
    ensures { result ≡ headed? text.now }
{
    let end = find(text, 0, LF);
    same_bytes(
        b"run\ttruth_matched\ttruth_unmatched\ttruth_undecided\tcalled_matched\tcalled_unmatched\tcalled_undecided",
        &text[..end],
    )
}

// Is the line a name and six counts?
pub fn is_run(line: &[u8]) -> bool
    ensures { result ≡ run? line.now }
{
    let name = find(line, 0, TAB);
    if name == 0 {
        return false;
    }
    let mut at = name + 1;
    for _ in 0..COUNTS_OF_RUN {
        if line.len() < at || !is_count(field_from(line, at)) {
            return false;
        }
        at = skip_fields(line, at, 1);
    }
    at == line.len() + 1
}

// The k-th count of a run.
fn count_on(line: &[u8], k: usize) -> u32
    requires { T (run? line.now)
        × (1 ≤ k)
        × (k ≤ counts_of_run) }
    ensures { result ≡ count_of (field k line.now) }
{
    let at = skip_fields(line, 0, k);
    read_count(field_from(line, at))
}

// The six counts of a run.
pub fn run_on(line: &[u8]) -> Run
    requires { T (run? line.now) }
    ensures { result ≡ run_on line.now }
{
    Run {
        matched1: count_on(line, 1),
        unmatched1: count_on(line, 2),
        undecided1: count_on(line, 3),
        matched2: count_on(line, 4),
        unmatched2: count_on(line, 5),
        undecided2: count_on(line, 6),
    }
}

// The number of the first line that is no run, where the first of the lines is line 2; none where each is one.
pub fn bad_line(text: &[u8]) -> Option<usize>
    ensures { result ≡ bad_run (lines_of text.now) }
{
    let k = lines_of(text).position(|line| !is_run(line))?;
    Some(k + 2)
}
