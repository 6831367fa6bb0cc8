// What lot_report prints for the bytes of runs.tsv.
ghost use Rattle.std.specs.Prelude.{◌≤◌, T, length};
ghost use Rattle.bases.specs.Wrote.{HasRoom, Wrote};
ghost use Rattle.vcf.specs.List.{lines_of, longest_text};
ghost use Rattle.lot_report.specs.Report.{runs_report, report_text};
ghost use Rattle.lot_report.specs.Run.{all_runs?};
ghost use Rattle.lot_report.specs.Table.{table_most};

use crate::run::{bad_line, is_headed};
use crate::runs::{count_lines, first_runs};
use crate::table::put_table;
use bases::put::Writer;
use files::file::ends_in_lf;
use lines::refused::refused_text;
use lot::lot::lot_of_first;
use vcf::entry::next_line;
use vcf::list::LONGEST_TEXT;

// Writes what is printed for these lines, each of which is a run.
fn report_runs(text: &[u8], out: &mut Writer)
    requires { T (all_runs? (lines_of text.now))
        × (length text.now ≤ longest_text)
        × HasRoom out.old table_most }
    ensures { Wrote out.old (runs_report (lines_of text.now)) out.new }
{
    let lot = lot_of_first(first_runs(text), count_lines(text));
    if lot.number != 0 {
        refused_text(
            lot.number as usize,
            lot.list as usize,
            lot.line as usize,
            lot.place as usize,
            out,
        );
        return;
    }
    put_table(text, lot, out);
}

// Writes what is printed for the text; it ends in the room.
pub fn report_text(text: &[u8], out: &mut Writer)
    requires { HasRoom out.old table_most }
    ensures { Wrote out.old (report_text text.now) out.new
        × (out.new.at ≤ length out.new.room.now) }
{
    if LONGEST_TEXT < text.len() || !ends_in_lf(text) {
        refused_text(3, 0, 0, 0, out);
        return;
    }
    if !is_headed(text) {
        refused_text(5, 0, 1, 0, out);
        return;
    }
    let runs = &text[next_line(text, 0)..];
    if let Some(bad) = bad_line(runs) {
        refused_text(6, 0, bad, 0, out);
        return;
    }
    report_runs(runs, out);
}
