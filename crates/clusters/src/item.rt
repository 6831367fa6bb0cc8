// An entry in merged order, and what the gap rule reads of it.
ghost use Rattle.std.specs.Prelude.{◌≡◌, ◌+◌, ◌-◌, ◌≤◌, ◌<◌, ◌^◌};
ghost use Rattle.clusters.specs.Item.{start_of, len_of, item_size};

use crate::gap::Size;
use bases::place::{Place, place_of};
use vcf::entry::Entry;

// An entry with the list that it is of; `side`: of list 1, a bool as `first` in donors' Row, and for the reason that stands there.
#[derive(Clone, Copy)]
pub struct Item {
    pub side: bool,
    pub entry: Entry,
}

// How long allele k of an entry is.
fn length_of(entry: Entry, k: usize) -> usize
    ensures { result ≡ len_of entry k }
{
    match k {
        0 => entry.reference.len,
        1 => entry.first.len,
        _ => entry.second.len,
    }
}

// What the gap rule reads of an entry. Its POS is one, and its span ends where a number can say it.
pub fn size_of(item: Item) -> Size
    requires { (1 ≤ item.entry.pos.0)
        × ((start_of item.entry).0 + item.entry.reference.len < 2 ^ 64) }
    ensures { result ≡ item_size item }
{
    let entry = item.entry;
    let start = place_of(entry.pos);
    let len = entry.reference.len;
    let len0 = length_of(entry, entry.copy0);
    let len1 = length_of(entry, entry.copy1);
    Size {
        side: item.side,
        start,
        end: Place(start.0 + len),
        shrink: len.saturating_sub(len0.min(len1)),
        grow: len0.max(len1).saturating_sub(len),
    }
}
