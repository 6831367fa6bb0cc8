// The clusters, one at a time: a walk from entry to entry up to the next cut.
ghost use Rattle.std.specs.Prelude.{false, ◌≡◌};
ghost use Rattle.bases.specs.Letter.{bases_of};
ghost use Rattle.clusters.specs.Heads.{Ready, done?, found_at};

use crate::gap::{begin, is_cut, more};
use crate::heads::{Heads, after, is_done, next_item};
use crate::item::size_of;

// A cluster: its number of entries, and the cursors behind it.
#[derive(Clone, Copy)]
pub struct Found {
    pub count: usize,
    pub heads: Heads,
}

// The cluster that begins with the next entry. There is one. No `Lists` is asked for, which says more: that the lists can be read from
// their first records on.
pub fn next_cluster(reference: &[u8], first: &[u8], second: &[u8], heads: Heads) -> Found
    requires { (done? first.now second.now heads ≡ false)
        × Ready (bases_of reference.now) first.now second.now heads }
    ensures { result ≡ found_at (bases_of reference.now) first.now second.now heads }
{
    let item = next_item(first, second, heads);
    let mut current = begin(size_of(item));
    let mut at = after(first, second, heads, item.side);
    let mut count: usize = 1;
    // By cursors and not by `Merged`, which is no plainer: what is told are the cursors in front of the entry that is cut.
    while !is_done(first, second, at) {
        let next = next_item(first, second, at);
        let size = size_of(next);
        if is_cut(reference, current, size.start) {
            return Found { count, heads: at };
        }
        current = more(current, size);
        at = after(first, second, at, next.side);
        count += 1;
    }
    Found { count, heads: at }
}
