// How much of an entry's alleles all have in common, and so is cut off: the loops of Tan and others, with nothing copied. REF, which is so
// many bases of the reference, and two ALTs; where there is one ALT it stands for both, which changes no test.
ghost use Rattle.std.specs.Prelude.{◌≡◌, ◌+◌, ◌≤◌, ◌<◌, eqb, length};
ghost use Rattle.bases.specs.Letter.{bases_of};
ghost use Rattle.bases.specs.Stretch.{stretch};
ghost use Rattle.normal.specs.Cut.{run, back_at, back_alike?, front_alike?};
ghost use Rattle.normal.specs.Spelled.{three, cuts_of};

use bases::place::Place;
use bases::reference::{base_is, bases_alike};

// What is cut off: the shortest length of the alleles, how many bases off every end, and how many off every front.
#[derive(Clone, Copy)]
pub struct Cuts {
    pub shortest: usize,
    pub back: usize,
    pub front: usize,
}

// Is the base k before the last of an allele that stands behind the first `start` bases of the reference that of REF, which is so many
// bases of the reference?
fn back_alike(reference: &[u8], start: Place, span: usize, allele: &[u8], k: usize) -> bool
    requires { (start.0 + span ≤ length (bases_of reference.now))
        × (k < start.0 + span)
        × (k < start.0 + length allele.now) }
    ensures { result ≡ eqb (back_at (bases_of reference.now) start.0 k (bases_of allele.now))
        (back_at (bases_of reference.now) start.0 k (stretch (bases_of reference.now) start.0 span)) }
{
    let len = allele.len();
    let place = start.0 + span - k - 1;
    if k < len {
        return base_is(reference, place, allele[len - k - 1]);
    }
    bases_alike(reference, start.0 - (k - len) - 1, place)
}

// How many last bases all alleles have in common, at most `most`, with the first `start` bases of the reference before each. Those of REF
// and before it are the reference's.
fn cut_back(reference: &[u8], start: Place, span: usize, b: &[u8], c: &[u8], most: usize) -> usize
    requires { (start.0 + span ≤ length (bases_of reference.now))
        × (most < start.0 + span)
        × (most < start.0 + length b.now)
        × (most < start.0 + length c.now) }
    ensures { result ≡ run (back_alike? (bases_of reference.now)
        (three start (stretch (bases_of reference.now) start.0 span) (bases_of b.now)
        (bases_of c.now))) most }
{
    for q in 0..most {
        if !back_alike(reference, start, span, b, q) || !back_alike(reference, start, span, c, q) {
            return q;
        }
    }
    most
}

// How many first bases all alleles have in common, at most `most`.
fn cut_front(reference: &[u8], start: Place, span: usize, b: &[u8], c: &[u8], most: usize) -> usize
    requires { (start.0 + span ≤ length (bases_of reference.now))
        × (most < span)
        × (most < length b.now)
        × (most < length c.now) }
    ensures { result ≡ run (front_alike?
        (three start (stretch (bases_of reference.now) start.0 span) (bases_of b.now)
        (bases_of c.now))) most }
{
    for t in 0..most {
        let place = start.0 + t;
        if !base_is(reference, place, b[t]) || !base_is(reference, place, c[t]) {
            return t;
        }
    }
    most
}

// What is cut off REF, which is so many bases of the reference from `start` on, and the ALTs b and c, none of them empty.
pub fn cuts_of(reference: &[u8], start: Place, span: usize, b: &[u8], c: &[u8]) -> Cuts
    requires { (start.0 + span ≤ length (bases_of reference.now))
        × (1 ≤ span)
        × (1 ≤ length b.now)
        × (1 ≤ length c.now) }
    ensures { result ≡ cuts_of (bases_of reference.now)
        (three start (stretch (bases_of reference.now) start.0 span) (bases_of b.now) (bases_of c.now)) }
{
    let shortest = b.len().min(c.len().min(span));
    let back = cut_back(reference, start, span, b, c, start.0 + shortest - 1);
    let front = if back < shortest {
        cut_front(reference, start, span, b, c, shortest - back - 1)
    } else {
        0
    };
    Cuts {
        shortest,
        back,
        front,
    }
}
