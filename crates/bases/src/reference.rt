// The reference: row 1, and the one door to its bases. Each question below is an equation over the list of its bases, and whoever asks for
// a base of the reference asks one of them: nobody else looks at a byte of it, but the view of allele 0.
ghost use Rattle.std.specs.Prelude.{◌≡◌, ◌+◌, ◌-◌, ◌≤◌, ◌<◌, eqb, length, get_or};
ghost use Rattle.bases.specs.Letter.{letter_of, bases_of};
ghost use Rattle.bases.specs.Nearest.{differ?, upper, nearest_to};
ghost use Rattle.bases.specs.Period.{any_period?};
ghost use Rattle.bases.specs.Wrote.{HasRoom, Wrote};
ghost use Rattle.bases.specs.Reference.{is_reference?};
ghost use Rattle.bases.specs.Same.{agree?};
ghost use Rattle.bases.specs.Stretch.{stretch};

use crate::letter::all_letters;
use crate::put::Writer;
use crate::same::{is_same, parts_agree};

// The most bases that a reference has.
pub const LONGEST_REFERENCE: usize = 65_535;

// Are the bytes a reference? Row 1 holds exactly where they are not.
pub fn is_reference(bytes: &[u8]) -> bool
    ensures { result ≡ is_reference? bytes.now }
{
    !bytes.is_empty() && bytes.len() <= LONGEST_REFERENCE && all_letters(bytes)
}

// How many bases has it?
pub fn base_count(reference: &[u8]) -> usize
    ensures { result ≡ length (bases_of reference.now) }
{
    reference.len()
}

// Does the base that a byte writes stand at a place?
pub fn base_is(reference: &[u8], place: usize, byte: u8) -> bool
    requires { place < length (bases_of reference.now) }
    ensures { result ≡ eqb (letter_of byte) (get_or (bases_of reference.now) place 0) }
{
    is_same(byte, reference[place])
}

// Does the same base stand at two places?
pub fn bases_alike(reference: &[u8], a: usize, b: usize) -> bool
    requires { (a < length (bases_of reference.now))
        × (b < length (bases_of reference.now)) }
    ensures { result ≡ eqb (get_or (bases_of reference.now) a 0) (get_or (bases_of reference.now) b 0) }
{
    is_same(reference[a], reference[b])
}

// Are its n bases from place a on those of a text from b on?
pub fn part_agrees(reference: &[u8], a: usize, text: &[u8], b: usize, n: usize) -> bool
    requires { (a + n ≤ length (bases_of reference.now))
        × (b + n ≤ length text.now) }
    ensures { result ≡ agree? (stretch (bases_of reference.now) a n) (stretch (bases_of text.now) b n) }
{
    parts_agree(reference, a, text, b, n)
}

// Are its n bases from place a on those from place b on? From one place on they are, and nothing is looked at.
pub fn stretches_agree(reference: &[u8], a: usize, b: usize, n: usize) -> bool
    requires { (a + n ≤ length (bases_of reference.now))
        × (b + n ≤ length (bases_of reference.now)) }
    ensures { result ≡ agree? (stretch (bases_of reference.now) a n) (stretch (bases_of reference.now) b n) }
{
    a == b || parts_agree(reference, a, reference, b, n)
}

// Writes its n bases from place a on, in upper case.
pub fn put_stretch(reference: &[u8], a: usize, n: usize, out: &mut Writer)
    requires { (a + n ≤ length (bases_of reference.now))
        × HasRoom out.old n }
    ensures { Wrote out.old (stretch (bases_of reference.now) a n) out.new }
{
    out.bases(&reference[a..a + n]);
}

// Do the bases at i and q behind it differ?
fn differ(stretch: &[u8], q: usize, i: usize) -> bool
    requires { i + q < length stretch.now }
    ensures { result ≡ differ? q (bases_of stretch.now) i }
{
    !is_same(stretch[i], stretch[i + q])
}

// The first place from `from` on whose base differs from the one q behind it.
fn first_difference(stretch: &[u8], q: usize, from: usize) -> Option<usize>
    requires { q ≤ length stretch.now }
    ensures { result ≡ upper q (bases_of stretch.now) from (length stretch.now - q - from) }
{
    (from..stretch.len() - q).find(|i| differ(stretch, q, *i))
}

// Such a place nearest to `at`: the walk goes up and down from there in turn, and at last on up. One `for` counts one index: `above` is
// counted by hand, which is plainer than a second range whose end is asked for in each turn.
fn nearest_difference(stretch: &[u8], q: usize, at: usize) -> Option<usize>
    requires { at + q < length stretch.now }
    ensures { result ≡ nearest_to at q (bases_of stretch.now) }
{
    let n = stretch.len() - q;
    let mut above = at;
    for below in (0..at).rev() {
        if above < n {
            if differ(stretch, q, above) {
                return Some(above);
            }
            above += 1;
        }
        if differ(stretch, q, below) {
            return Some(below);
        }
    }
    first_difference(stretch, q, above)
}

// Is some q with 1 <= q <= g a period of the stretch? From g down: a stretch no longer than g is told at once. Where two bases differ for
// one q, there are mostly two close by that differ for the next: so each walk begins where the last one ended.
fn any_period(stretch: &[u8], g: usize) -> bool
    ensures { result ≡ any_period? g (bases_of stretch.now) }
{
    let mut at: usize = 0;
    for q in (1..=g).rev() {
        if stretch.len() <= q {
            return true;
        }
        let Some(place) = nearest_difference(stretch, q, at) else {
            return true;
        };
        at = place;
    }
    false
}

// Has the stretch from place a up to place b a period q with 1 <= q <= g?
pub fn has_any_period(reference: &[u8], a: usize, b: usize, g: usize) -> bool
    requires { (a ≤ b)
        × (b ≤ length (bases_of reference.now)) }
    ensures { result ≡ any_period? g (stretch (bases_of reference.now) a (b - a)) }
{
    any_period(&reference[a..b], g)
}
