// The table that is printed, written line by line.
ghost use Rattle.std.specs.Prelude.{◌+◌, ◌*◌, length};
ghost use Rattle.bases.specs.Wrote.{HasRoom, Wrote};
ghost use Rattle.vcf.specs.List.{lines_of};
ghost use Rattle.lot_report.specs.Printable.{Printable};
ghost use Rattle.lot_report.specs.Fine.{Fine, AllFine, Accepted};
ghost use Rattle.lot_report.specs.Table.{line_text, line_most, run_text, runs_text, table_text, table_most};

use crate::run::run_on;
use crate::share::put_share;
use bases::put::Writer;
use fields::bytes::{LF, TAB};
use fields::field::field_from;
use lines::field::put_fields;
use lot::answer::{Lot, MOST_RUNS};
use lot::lot::lot_of_first;
use vcf::lines::lines_of;
use vcf::list::LONGEST_TEXT;

// The most bytes of a line without its name.
const LINE_MOST: usize = 123;

// The most bytes of a table: the heading's, those of the names and of a line for each run, and those of the lot's line.
pub const TABLE_MOST: usize = 154 + (LONGEST_TEXT + LINE_MOST * MOST_RUNS) + (3 + LINE_MOST);

// Writes the line of a name and a lot.
fn put_line(name: &[u8], lot: Lot, out: &mut Writer)
    requires { Printable lot
        × HasRoom out.old (length name.now + line_most) }
    ensures { Wrote out.old (line_text name.now lot) out.new }
{
    out.bytes(name);
    out.byte(TAB);
    put_fields(
        lot.truth as usize,
        lot.total.matched1 as usize,
        lot.total.undecided1 as usize,
        TAB,
        out,
    );
    put_fields(
        lot.called as usize,
        lot.total.matched2 as usize,
        lot.total.undecided2 as usize,
        TAB,
        out,
    );
    put_share(lot.recall, TAB, out);
    put_share(lot.precision, LF, out);
}

// Writes the line of a run: that of a lot of this run alone.
fn put_run(line: &[u8], out: &mut Writer)
    requires { Fine line.now
        × HasRoom out.old (length line.now + line_most) }
    ensures { Wrote out.old (run_text line.now) out.new }
{
    let lot = lot_of_first([run_on(line); MOST_RUNS], 1);
    put_line(field_from(line, 0), lot, out);
}

// Writes the lines of the runs on these lines.
fn put_runs(text: &[u8], out: &mut Writer)
    requires { AllFine (lines_of text.now)
        × HasRoom out.old (length text.now + line_most * length (lines_of text.now)) }
    ensures { Wrote out.old (runs_text (lines_of text.now)) out.new }
{
    for line in lines_of(text) {
        put_run(line, out);
    }
}

// Writes the table for the lot of the runs on these lines.
pub fn put_table(text: &[u8], lot: Lot, out: &mut Writer)
    requires { Accepted text.now lot
        × HasRoom out.old table_most }
    ensures { Wrote out.old (table_text (lines_of text.now)) out.new }
{
    out.bytes(
        b"run\ttruth\ttruth_matched\ttruth_undecided\tcalled\tcalled_matched\tcalled_undecided\t\
          recall\trecall_ppm\trecall_percent\tprecision\tprecision_ppm\tprecision_percent\n",
    );
    put_runs(text, out);
    put_line(b"lot", lot, out);
}
