// What counts prints for the name and the bytes of its three files.
ghost use Rattle.std.specs.Prelude.{length};
ghost use Rattle.bases.specs.Wrote.{HasRoom, Wrote};
ghost use Rattle.marks.specs.Counts.{Few};
ghost use Rattle.files.specs.Given.{Laid};
ghost use Rattle.lines.specs.Lines.{fields, fields_most};
ghost use Rattle.counts.specs.Counted.{counts_line, counted_text, counted_in, counted_most};

use bases::put::Writer;
use card::lists::LEAST;
use fields::bytes::{LF, TAB};
use files::given::Given;
use lines::field::{FIELDS_MOST, put_fields};
use marks::count::{Count, Counts, count_lists};
use told::marked::mark_files;
use told::refused::put_refused;

// The most bytes that are printed.
pub const COUNTED_MOST: usize = 2 * FIELDS_MOST;

// Writes the counts of a list, and the byte behind them.
fn put_count(count: Count, end: u8, out: &mut Writer)
    requires { Few count
        × HasRoom out.old fields_most }
    ensures { Wrote out.old (fields count.matched count.unmatched count.undecided end) out.new }
{
    put_fields(count.matched, count.unmatched, count.undecided, end, out);
}

// Writes the line of six counts.
pub fn put_counts(counts: Counts, out: &mut Writer)
    requires { Few counts.first
        × Few counts.second
        × HasRoom out.old counted_most }
    ensures { Wrote out.old (counts_line counts) out.new }
{
    put_count(counts.first, TAB, out);
    put_count(counts.second, LF, out);
}

// Writes what is printed for a reference file, a name and two lists.
fn count_text(file: &[u8], name: &[u8], first: &[u8], second: &[u8], out: &mut Writer)
    requires { HasRoom out.old counted_most }
    ensures { Wrote out.old (counted_text file.now name.now first.now second.now) out.new }
{
    let mut marks = [0u8; LEAST];
    match mark_files(file, name, first, second, &mut marks) {
        Ok(_) => put_counts(count_lists(first, second, &marks), out),
        Err(refusal) => put_refused(refusal, out),
    }
}

// The same for what the program is given.
pub fn count_given(room: &[u8], given: Given, out: &mut Writer)
    requires { Laid given (length room.now)
        × HasRoom out.old counted_most }
    ensures { Wrote out.old (counted_in room.now given) out.new }
{
    count_text(
        given.reference(room),
        given.name(room),
        given.first(room),
        given.second(room),
        out,
    );
}
