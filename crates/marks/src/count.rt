// What marks count: the entries marked `+` or `-`, those marked `0`, and those marked `?`; over all marks, and in each of two lists.
ghost use Rattle.std.specs.Prelude.{◌≡◌, ◌≤◌, length};
ghost use Rattle.marks.specs.Counts.{matched?, add_mark, add_entry, count_all, counts_of, most_entries, Few};
ghost use Rattle.clusters.specs.Heads.{Readable, start_heads};
ghost use Rattle.clusters.specs.Merged.{merged_items};

use clusters::heads::start_heads;
use clusters::merged::merged_from;

// The three counts.
#[derive(Clone, Copy, Default)]
pub struct Count {
    pub matched: usize,
    pub unmatched: usize,
    pub undecided: usize,
}

// The six counts: those of list 1 and those of list 2.
#[derive(Clone, Copy, Default)]
pub struct Counts {
    pub first: Count,
    pub second: Count,
}

// Is this the mark of a matched entry?
fn is_matched(mark: u8) -> bool
    ensures { result ≡ matched? mark }
{
    matches!(mark, b'+' | b'-')
}

// The counts with one mark more.
fn add_mark(count: Count, mark: u8) -> Count
    requires { Few count }
    ensures { result ≡ add_mark count mark }
{
    Count {
        matched: count.matched + usize::from(is_matched(mark)),
        unmatched: count.unmatched + usize::from(mark == b'0'),
        undecided: count.undecided + usize::from(mark == b'?'),
    }
}

// The counts of the marks.
pub fn count_all(marks: &[u8]) -> Count
    requires { length marks.now ≤ most_entries }
    ensures { result ≡ count_all marks.now }
{
    let mut count = Count::default();
    for mark in marks {
        count = add_mark(count, *mark);
    }
    count
}

// The six counts with the mark of one entry more, of this list (`side`: list 1).
fn add_entry(counts: Counts, side: bool, mark: u8) -> Counts
    requires { Few counts.first
        × Few counts.second }
    ensures { result ≡ add_entry counts side mark }
{
    if side {
        Counts {
            first: add_mark(counts.first, mark),
            ..counts
        }
    } else {
        Counts {
            second: add_mark(counts.second, mark),
            ..counts
        }
    }
}

// The six counts of two lists that can be read and have no more entries than there are marks. Marks behind the entries are not looked at.
pub fn count_lists(first: &[u8], second: &[u8], marks: &[u8]) -> Counts
    requires { Readable first.now second.now (start_heads first.now second.now)
        × (length (merged_items first.now second.now) ≤ length marks.now)
        × (length (merged_items first.now second.now) ≤ most_entries) }
    ensures { result ≡ counts_of (merged_items first.now second.now) marks.now }
{
    let mut counts = Counts::default();
    let heads = start_heads(first, second);
    for (item, mark) in merged_from(first, second, heads).zip(marks) {
        counts = add_entry(counts, item.side, *mark);
    }
    counts
}
