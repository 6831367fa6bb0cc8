// The normal form of one entry: its new start, and its alleles as runs of the reference and parts of the list's text.
ghost use Rattle.std.specs.Prelude.{◌≡◌, ◌+◌, ◌-◌, ◌≤◌, ◌<◌, ◌^◌, length};
ghost use Rattle.bases.specs.Letter.{bases_of};
ghost use Rattle.normal.specs.Spelled.{cuts_of, taken_in, spelled, start_of, form_of, Stands, normal_entry};

use crate::cut::{Cuts, cuts_of};
use bases::place::{Place, place_of};
use vcf::entry::{Entry, Part};

// An allele of a normal form: so many bases of the reference from the new start on, and behind them a part of the text.
#[derive(Clone, Copy)]
pub struct Spelled {
    pub front: usize,
    pub own: Part,
}

// An entry's normal form: where it starts, the length of REF there, and the ALTs (`second` is as `first` where there is one).
#[derive(Clone, Copy)]
pub struct NormalEntry {
    pub start: Place,
    pub span: usize,
    pub first: Spelled,
    pub second: Spelled,
}

// How many bases of the reference are taken in before the span, so that the shortest allele keeps one.
fn taken_in(cuts: Cuts) -> usize
    requires { 1 ≤ cuts.shortest }
    ensures { result ≡ taken_in cuts }
{
    cuts.back.saturating_sub(cuts.shortest - 1)
}

// What is left of an ALT.
fn spelled_part(cuts: Cuts, part: Part) -> Spelled
    requires { (1 ≤ cuts.shortest)
        × (cuts.shortest ≤ part.len)
        × (cuts.front ≤ cuts.shortest - (cuts.back + 1))
        × (part.at + part.len < 2 ^ 64) }
    ensures { result ≡ spelled cuts part }
{
    if part.len <= cuts.back {
        return Spelled {
            front: part.len - cuts.shortest + 1,
            own: Part {
                at: part.at,
                len: 0,
            },
        };
    }
    Spelled {
        front: taken_in(cuts),
        own: Part {
            at: part.at + cuts.front,
            len: part.len - cuts.back - cuts.front,
        },
    }
}

// What is cut off the alleles of an entry that starts at `start`.
fn entry_cuts(reference: &[u8], text: &[u8], entry: Entry, start: Place) -> Cuts
    requires { Stands (bases_of reference.now) text.now entry
        × (start ≡ start_of entry) }
    ensures { result ≡ cuts_of (bases_of reference.now) (form_of (bases_of reference.now) text.now entry) }
{
    let first = entry.first.bytes(text);
    let last = entry.last_alt().bytes(text);
    cuts_of(reference, start, entry.reference.len, first, last)
}

// The normal form of an entry that stands on the reference and in the text.
pub fn normal_entry(reference: &[u8], text: &[u8], entry: Entry) -> NormalEntry
    requires { Stands (bases_of reference.now) text.now entry }
    ensures { result ≡ normal_entry (bases_of reference.now) text.now entry }
{
    let start = place_of(entry.pos);
    let cuts = entry_cuts(reference, text, entry, start);
    let new_start = start.0 + cuts.front - taken_in(cuts);
    NormalEntry {
        start: Place(new_start),
        span: start.0 + entry.reference.len - cuts.back - new_start,
        first: spelled_part(cuts, entry.first),
        second: spelled_part(cuts, entry.last_alt()),
    }
}
