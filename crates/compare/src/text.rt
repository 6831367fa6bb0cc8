// The text that compare prints for two accepted lists, made from the lists, what marking them tells, and the marks.
ghost use Rattle.std.specs.Prelude.{◌≡◌, ◌*◌, ◌≤◌, length, take, replicate};
ghost use Rattle.bases.specs.Wrote.{HasRoom, Wrote};
ghost use Rattle.clusters.specs.Heads.{Readable, items_from, passed};
ghost use Rattle.clusters.specs.Merged.{merged_items};
ghost use Rattle.lines.specs.Lines.{largest_number};
ghost use Rattle.compare.specs.Makes.{Makes};
ghost use Rattle.compare.specs.Printed.{entry_lines, line_most, printed_text, text_most};

use crate::line::{put_entry, put_heading, put_total};
use bases::put::Writer;
use clusters::heads::{Heads, after, next_item, start_heads};
use marks::count::count_all;
use records::record::MOST_RECORDS;
use told::marked::Marked;

// The most entries that two accepted lists have, and so the most clusters.
pub const MOST_ENTRIES: usize = 2 * MOST_RECORDS;

// The most bytes that a text has: the heading's, those of a line for each entry, and those of the total line.
pub const TEXT_MOST: usize = 22 + 26 * MOST_ENTRIES + 38;

// Writes the lines of a cluster's entries, which are the next in merged order, a mark for each. Says where the cursors stand behind them.
fn put_cluster(
    first: &[u8],
    second: &[u8],
    heads: Heads,
    cluster: usize,
    marks: &[u8],
    out: &mut Writer,
) -> Heads
    requires { Readable first.now second.now heads
        × (length marks.now ≤ length (items_from first.now second.now heads))
        × (cluster ≤ largest_number)
        × HasRoom out.old (line_most * length marks.now) }
    ensures { (result ≡ passed first.now second.now (length marks.now) heads)
        × Wrote out.old
        (entry_lines (replicate (length marks.now) cluster) (items_from first.now second.now heads) marks.now)
        out.new }
{
    let mut head = heads;
    for mark in marks {
        let item = next_item(first, second, head);
        put_entry(item.side, item.entry.pos, cluster, *mark, out);
        head = after(first, second, head, item.side);
    }
    head
}

// Writes the text, for the first records of the plan, as many as there are clusters, and the entries' marks.
pub fn make_text(first: &[u8], second: &[u8], marked: Marked, marks: &[u8], out: &mut Writer)
    requires { Makes first.now second.now marked marks.now
        × HasRoom out.old text_most }
    ensures { Wrote out.old
        (printed_text (take marked.clusters marked.plan) (merged_items first.now second.now) marks.now marked.score)
        out.new }
{
    put_heading(out);
    let mut heads = start_heads(first, second);
    let mut i: usize = 0;
    for (k, cluster) in marked.plan[..marked.clusters].iter().enumerate() {
        let end = i + cluster.count as usize;
        heads = put_cluster(first, second, heads, k, &marks[i..end], out);
        i = end;
    }
    put_total(count_all(&marks[..i]), marked.score, out);
}
