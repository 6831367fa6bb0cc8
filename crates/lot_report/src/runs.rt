// The runs of runs.tsv, read off lines each of which is one.
ghost use Rattle.std.specs.Prelude.{◌≡◌, T, length, take};
ghost use Rattle.bases.specs.Put.{put};
ghost use Rattle.lot.specs.Run.{most_runs};
ghost use Rattle.vcf.specs.List.{lines_of};
ghost use Rattle.lot_report.specs.Run.{all_runs?, no_runs, runs_on};

use crate::run::run_on;
use lot::answer::MOST_RUNS;
use lot::run::Run;
use vcf::lines::lines_of;

// How many lines there are.
pub fn count_lines(text: &[u8]) -> usize
    ensures { result ≡ length (lines_of text.now) }
{
    lines_of(text).count()
}

// The runs on the lines, the first 256 of them; behind the last one stand runs without entries. No line behind the 256th is looked for.
pub fn first_runs(text: &[u8]) -> [Run; MOST_RUNS]
    requires { T (all_runs? (lines_of text.now)) }
    ensures { result ≡ put no_runs 0 (take most_runs (runs_on (lines_of text.now))) }
{
    let none = Run::default();
    let mut runs = [none; MOST_RUNS];
    for (n, line) in lines_of(text).take(MOST_RUNS).enumerate() {
        runs[n] = run_on(line);
    }
    runs
}
