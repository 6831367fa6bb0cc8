// The lines that compare prints.
ghost use Rattle.std.specs.Prelude.{◌≤◌, length};
ghost use Rattle.bases.specs.Wrote.{HasRoom, Wrote};
ghost use Rattle.marks.specs.Counts.{Few};
ghost use Rattle.lines.specs.Lines.{largest_number};
ghost use Rattle.compare.specs.Printed.{heading, entry_line, line_most, total_line, total_most};

use bases::place::Pos;
use bases::put::Writer;
use fields::bytes::{LF, TAB};
use lines::field::{put_field, put_fields};
use listed::listed::list_number;
use marks::count::Count;

// Writes the heading.
pub fn put_heading(out: &mut Writer)
    requires { HasRoom out.old (length heading) }
    ensures { Wrote out.old heading out.new }
{
    out.bytes(b"list\tPOS\tcluster\tmark\n");
}

// Writes the line of an entry: list, POS, cluster, mark.
pub fn put_entry(side: bool, pos: Pos, cluster: usize, mark: u8, out: &mut Writer)
    requires { (pos.0 ≤ largest_number)
        × (cluster ≤ largest_number)
        × HasRoom out.old line_most }
    ensures { Wrote out.old (entry_line side pos cluster mark) out.new }
{
    let list = list_number(side) as usize;
    put_fields(list, pos.0, cluster, TAB, out);
    out.byte(mark);
    out.byte(LF);
}

// Writes the total line: the totals and the score.
pub fn put_total(totals: Count, score: usize, out: &mut Writer)
    requires { Few totals
        × (score ≤ largest_number)
        × HasRoom out.old total_most }
    ensures { Wrote out.old (total_line totals score) out.new }
{
    out.bytes(b"total\t");
    put_fields(totals.matched, totals.unmatched, totals.undecided, TAB, out);
    put_field(score, LF, out);
}
