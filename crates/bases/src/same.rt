// Equal bases: the only code that tells whether two bytes of a reference or of an allele are one base.
ghost use Rattle.std.specs.Prelude.{◌≡◌, ◌+◌, ◌≤◌, eqb, length};
ghost use Rattle.bases.specs.Letter.{letter_of, bases_of};
ghost use Rattle.bases.specs.Same.{agree?, same_bases?};
ghost use Rattle.bases.specs.Stretch.{stretch};

use crate::letter::letter;

// Are the two bytes the same base, in either case? Two equal bytes are told at once.
pub fn is_same(x: u8, y: u8) -> bool
    ensures { result ≡ eqb (letter_of x) (letter_of y) }
{
    x == y || letter(x) == letter(y)
}

// Are the bases of the two equal, as far as both go? The first two that differ end the walk.
pub fn agree(a: &[u8], b: &[u8]) -> bool
    ensures { result ≡ agree? (bases_of a.now) (bases_of b.now) }
{
    a.iter().zip(b).all(|(x, y)| is_same(*x, *y))
}

// Do the two spell the same bases?
pub fn same_bases(a: &[u8], b: &[u8]) -> bool
    ensures { result ≡ same_bases? a.now b.now }
{
    a.len() == b.len() && agree(a, b)
}

// Are the n bases of one text from a on those of another from b on?
pub fn parts_agree(one: &[u8], a: usize, two: &[u8], b: usize, n: usize) -> bool
    requires { (a + n ≤ length one.now)
        × (b + n ≤ length two.now) }
    ensures { result ≡ agree? (stretch (bases_of one.now) a n) (stretch (bases_of two.now) b n) }
{
    agree(&one[a..a + n], &two[b..b + n])
}
