// FORMAT and the genotype: rows 11 and 12.
ghost use Rattle.std.specs.Prelude.{◌≡◌};
ghost use Rattle.fields.specs.Genotype.{format_wrong?, genotype, digit_to?, copies_wrong?};

use crate::bytes::{COLON, begins, find};
use crate::pos::is_digit;

// FORMAT where it is the genotype alone.
const GENOTYPE_KEY: &[u8] = b"GT";

// Is FORMAT neither GT nor begun by GT: ?
pub fn format_wrong(field: &[u8]) -> bool
    ensures { result ≡ format_wrong? field.now }
{
    field != GENOTYPE_KEY && !begins(b"GT:", field)
}

// The genotype in the sample's text.
pub fn genotype_of(sample: &[u8]) -> &[u8]
    ensures { result.now ≡ genotype sample.now }
{
    let end = find(sample, 0, COLON);
    &sample[..end]
}

// Is the byte a digit that is at most `most`?
fn is_digit_to(most: usize, byte: u8) -> bool
    ensures { result ≡ digit_to? most byte }
{
    is_digit(byte) && (byte - b'0') as usize <= most
}

// Is the genotype wrong beside so many ALTs?
pub fn copies_wrong(alts: usize, genotype: &[u8]) -> bool
    ensures { result ≡ copies_wrong? alts genotype.now }
{
    match genotype {
        [first, b'/' | b'|', second] => !is_digit_to(alts, *first) || !is_digit_to(alts, *second),
        _ => true,
    }
}
