// The entries in merged order: a lent slice of small records, one an entry. A walk finds the records, each entry read once; only
// `fill_entries` touches the slice.
ghost use Rattle.std.specs.Prelude.{◌≡◌, ◌+◌, ◌≤◌, ◌<◌, ◌^◌, length};
ghost use Rattle.std.specs.Iterator.{YieldsFirst, item_count};
ghost use Rattle.bases.specs.Letter.{bases_of};
ghost use Rattle.bases.specs.Put.{put};
ghost use Rattle.vcf.specs.List.{longest_text};
ghost use Rattle.marks.specs.Counts.{one};
ghost use Rattle.clusters.specs.Gap.{Adds};
ghost use Rattle.clusters.specs.Heads.{Ready, start_heads};
ghost use Rattle.listed.specs.Listed.{list_number, next_of, one_on, nexts_after, listed_as, first_next, listed_of};
ghost use Rattle.listed.specs.Listing.{grown, Going, start_stand, listing_from, first_listing, next_listing, Goes, entries_left};
ghost use Rattle.clusters.specs.Merged.{merged_items};

use clusters::gap::{Current, Size, begin, is_cut, more, nothing};
use clusters::heads::{Heads, after, is_done, next_item, start_heads};
use clusters::item::size_of;
use clusters::lists::Lists;
use vcf::entry::lines_above;

// An entry: its list (1 or 2), its number in the list (from 0), its line in that list's text (from 1) and its cluster.
#[repr(C)]
#[derive(Clone, Copy)]
pub struct Listed {
    pub list: u32,
    pub entry: u32,
    pub line: u32,
    pub cluster: u32,
}

// The next entry of a list: its number in the list, and its line.
#[derive(Clone, Copy)]
pub struct Next {
    pub entry: u32,
    pub line: u32,
}

// The next entry of each list.
#[derive(Clone, Copy)]
pub struct Nexts {
    pub first: Next,
    pub second: Next,
}

// Where a walk from entry to entry is: the cursors, the next entry of each list, what is kept of the current cluster, and how many clusters
// have begun.
#[derive(Clone, Copy)]
pub struct Stand {
    pub heads: Heads,
    pub nexts: Nexts,
    pub current: Current,
    pub begun: u32,
}

// A step of the walk: is there an entry, its record, and where the walk is behind it.
#[derive(Clone, Copy)]
pub struct Listing {
    pub more: bool,
    pub listed: Listed,
    pub behind: Stand,
}

// A walk over the entries of two lists from where it stands on.
#[derive(Clone, Copy)]
pub struct Entries<'a> {
    lists: Lists<'a>,
    stand: Stand,
}

// The first entry of a list.
fn first_next(text: &[u8]) -> Next
    requires { length text.now ≤ longest_text }
    ensures { result ≡ first_next text.now }
{
    Next {
        entry: 0,
        line: (lines_above(text) + 1) as u32,
    }
}

// At the first entries.
fn start_stand(first: &[u8], second: &[u8]) -> Stand
    requires { (length first.now ≤ longest_text)
        × (length second.now ≤ longest_text) }
    ensures { result ≡ start_stand first.now second.now }
{
    Stand {
        heads: start_heads(first, second),
        nexts: Nexts {
            first: first_next(first),
            second: first_next(second),
        },
        current: nothing(),
        begun: 0,
    }
}

// The entry behind one, in its list.
fn one_on(next: Next) -> Next
    requires { (next.entry + 1 < 2 ^ 32)
        × (next.line + 1 < 2 ^ 32) }
    ensures { result ≡ one_on next }
{
    Next {
        entry: next.entry + 1,
        line: next.line + 1,
    }
}

// The next entries behind the next of a list (`side`: list 1).
fn nexts_after(nexts: Nexts, side: bool) -> Nexts
    requires { ((next_of nexts side).entry + 1 < 2 ^ 32)
        × ((next_of nexts side).line + 1 < 2 ^ 32) }
    ensures { result ≡ nexts_after nexts side }
{
    if side {
        Nexts {
            first: one_on(nexts.first),
            ..nexts
        }
    } else {
        Nexts {
            second: one_on(nexts.second),
            ..nexts
        }
    }
}

// The number of a list (`side`: list 1).
pub fn list_number(side: bool) -> u32
    ensures { result ≡ list_number side }
{
    if side { 1 } else { 2 }
}

// The next entry of a list.
fn next_of(nexts: Nexts, side: bool) -> Next
    ensures { result ≡ next_of nexts side }
{
    if side { nexts.first } else { nexts.second }
}

// The record of a list's next entry, which is in this cluster.
fn listed_as(nexts: Nexts, side: bool, cluster: u32) -> Listed
    ensures { result ≡ listed_as nexts side cluster }
{
    let next = next_of(nexts, side);
    Listed {
        list: list_number(side),
        entry: next.entry,
        line: next.line,
        cluster,
    }
}

// One where the test holds.
fn one(test: bool) -> u32
    ensures { result ≡ one test }
{
    u32::from(test)
}

// What is kept of the cluster of an entry, where the rule cuts before it and where it does not.
fn grown(current: Current, size: Size, cut: bool) -> Current
    requires { Adds current size }
    ensures { result ≡ grown current size cut }
{
    if cut {
        begin(size)
    } else {
        more(current, size)
    }
}

// The step where the walk stands. Where no entry is left, it stays.
fn listing_from(reference: &[u8], first: &[u8], second: &[u8], stand: Stand) -> Listing
    requires { Going (bases_of reference.now) first.now second.now stand }
    ensures { result ≡ listing_from (bases_of reference.now) first.now second.now stand }
{
    if is_done(first, second, stand.heads) {
        return Listing {
            more: false,
            listed: Listed {
                list: 0,
                entry: 0,
                line: 0,
                cluster: 0,
            },
            behind: stand,
        };
    }
    let item = next_item(first, second, stand.heads);
    let size = size_of(item);
    let cut = is_cut(reference, stand.current, size.start);
    let begun = stand.begun + one(cut);
    Listing {
        more: true,
        listed: listed_as(stand.nexts, item.side, begun - 1),
        behind: Stand {
            heads: after(first, second, stand.heads, item.side),
            nexts: nexts_after(stand.nexts, item.side),
            current: grown(stand.current, size, cut),
            begun,
        },
    }
}

// The first step.
pub fn first_listing(reference: &[u8], first: &[u8], second: &[u8]) -> Listing
    requires { Ready (bases_of reference.now) first.now second.now (start_heads first.now second.now) }
    ensures { result ≡ first_listing (bases_of reference.now) first.now second.now }
{
    listing_from(reference, first, second, start_stand(first, second))
}

// The step behind one.
pub fn next_listing(reference: &[u8], first: &[u8], second: &[u8], listing: Listing) -> Listing
    requires { Going (bases_of reference.now) first.now second.now listing.behind }
    ensures { result ≡ next_listing (bases_of reference.now) first.now second.now listing }
{
    listing_from(reference, first, second, listing.behind)
}

// A walk over all entries of two lists, each read once.
pub fn all_entries(lists: Lists) -> Entries
    ensures { Goes result
        × (entries_left result ≡ listed_of (bases_of lists.entry.reference.now) lists.entry.first.now lists.entry.second.now) }
{
    Entries {
        lists,
        stand: start_stand(lists.first, lists.second),
    }
}

impl<'a> Iterator for Entries<'a> {
    type Item = Listed;

    ghost can_next = { Goes };

    ghost next_gives = { YieldsFirst entries_left };

    ghost remaining = { item_count entries_left };

    fn next(&mut self) -> Option<Listed> {
        let listing = listing_from(
            self.lists.reference,
            self.lists.first,
            self.lists.second,
            self.stand,
        );
        if !listing.more {
            return None;
        }
        self.stand = listing.behind;
        Some(listing.listed)
    }
}

// Writes the records of all entries of two lists, in merged order, into the lent records, and says how many there are. Nothing else of the
// records changes. Two loops of two lines, this and clusters' `fill_plan`, are plainer than a generic one.
pub fn fill_entries(lists: Lists, entries: &mut [Listed]) -> usize
    requires { length (merged_items lists.first.now lists.second.now) ≤ length entries.old }
    ensures { (result ≡ length (listed_of (bases_of lists.entry.reference.now) lists.entry.first.now lists.entry.second.now))
        × (entries.new
        ≡ put entries.old 0 (listed_of (bases_of lists.entry.reference.now) lists.entry.first.now lists.entry.second.now)) }
{
    // `k` is what is told, so it is counted here: `enumerate` would be no plainer, since it does not say how many there were.
    let mut k: usize = 0;
    for listed in all_entries(lists) {
        entries[k] = listed;
        k += 1;
    }
    k
}
