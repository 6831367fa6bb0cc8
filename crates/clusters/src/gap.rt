// The gap rule: what is kept of the current cluster, and whether it is cut before the next entry.
ghost use Rattle.std.specs.Prelude.{◌≡◌, ◌+◌, ◌≤◌, ◌<◌, ◌^◌, length};
ghost use Rattle.bases.specs.Letter.{bases_of};
ghost use Rattle.clusters.specs.Gap.{more, Adds, nothing, begin, reach_of, cut?};

use bases::place::Place;
use bases::reference::has_any_period;

// What the rule reads of an entry: is it of list 1, where its span starts and ends, and by how much its alleles are shorter or longer than
// REF. `side` is a bool as `first` in donors' Row is, and for the reason that stands there.
#[derive(Clone, Copy)]
pub struct Size {
    pub side: bool,
    pub start: Place,
    pub end: Place,
    pub shrink: usize,
    pub grow: usize,
}

// What is kept of the current cluster, in document 01's letters: b, the largest end, and the sums A_1, B_1, A_2 and B_2.
#[derive(Clone, Copy)]
pub struct Current {
    pub b: Place,
    pub a1: usize,
    pub b1: usize,
    pub a2: usize,
    pub b2: usize,
}

// One entry more in the current cluster.
pub fn more(current: Current, size: Size) -> Current
    requires { Adds current size }
    ensures { result ≡ more current size }
{
    let b = Place(current.b.0.max(size.end.0));
    if size.side {
        Current {
            b,
            a1: current.a1 + size.shrink,
            b1: current.b1 + size.grow,
            ..current
        }
    } else {
        Current {
            b,
            a2: current.a2 + size.shrink,
            b2: current.b2 + size.grow,
            ..current
        }
    }
}

// No entry yet. Before any entry the rule cuts.
pub fn nothing() -> Current
    ensures { result ≡ nothing }
{
    Current {
        b: Place(0),
        a1: 0,
        b1: 0,
        a2: 0,
        b2: 0,
    }
}

// A cluster begins with this entry: b and the sums begin again.
pub fn begin(size: Size) -> Current
    ensures { result ≡ begin size }
{
    more(nothing(), size)
}

// g: by how much the two lists' donors can come to be apart.
fn reach_of(current: Current) -> usize
    requires { (current.b1 + current.a2 < 2 ^ 64)
        × (current.b2 + current.a1 < 2 ^ 64) }
    ensures { result ≡ reach_of current }
{
    (current.b1 + current.a2).max(current.b2 + current.a1)
}

// Is the current cluster cut before an entry that starts at `start`? A gap no longer than g has the period g, and where g is 0 no period is
// asked for.
pub fn is_cut(reference: &[u8], current: Current, start: Place) -> bool
    requires { (start.0 ≤ length (bases_of reference.now))
        × (current.b1 + current.a2 < 2 ^ 64)
        × (current.b2 + current.a1 < 2 ^ 64) }
    ensures { result ≡ cut? (bases_of reference.now) current start }
{
    current.b.0 <= start.0 && !has_any_period(reference, current.b.0, start.0, reach_of(current))
}
