// REF and ALT: the tests of rows 9, 20 and 21.
ghost use Rattle.std.specs.Prelude.{◌≡◌};
ghost use Rattle.fields.specs.Allele.{right_size?, is_allele?, alt_count};

use crate::bytes::{COMMA, find};
use bases::letter::all_letters;

// The most bases that an allele has.
pub const LONGEST_ALLELE: usize = 64;

// Are the bytes 1 to 64?
pub fn is_right_size(bytes: &[u8]) -> bool
    ensures { result ≡ right_size? bytes.now }
{
    (1..=LONGEST_ALLELE).contains(&bytes.len())
}

// Are they 1 to 64 letters?
pub fn is_allele(bytes: &[u8]) -> bool
    ensures { result ≡ is_allele? bytes.now }
{
    is_right_size(bytes) && all_letters(bytes)
}

// How many ALTs does the field have?
pub fn alt_count(field: &[u8]) -> usize
    ensures { result ≡ alt_count field.now }
{
    if find(field, 0, COMMA) < field.len() {
        2
    } else {
        1
    }
}
