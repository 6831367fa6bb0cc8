// Which letter a byte is, in one place. What else looks at the bytes of a reference or of an allele compares them as they are first
// (same.rt) or looks for a byte that is no letter, as the comma of ALT.
ghost use Rattle.std.specs.Prelude.{◌≡◌};
ghost use Rattle.bases.specs.Letter.{letter_of, is_letter?, all_letters?};

// All bits of a byte but the one that is set in lower case and not in upper case. `to_ascii_uppercase` is no plainer where this is used: it
// asks again for what is_letter has told.
const UPPER: u8 = 223;

// Is the byte a letter, in either case?
pub fn is_letter(byte: u8) -> bool
    ensures { result ≡ is_letter? byte }
{
    matches!(
        byte,
        b'A' | b'C' | b'G' | b'N' | b'T' | b'a' | b'c' | b'g' | b'n' | b't'
    )
}

// The letter that a byte is, in either case, as its upper-case byte, or 0 where it is none: `letter_of` is 0 there, which
// `bases_of` maps over every byte of a text.
pub fn letter(byte: u8) -> u8
    ensures { result ≡ letter_of byte }
{
    if is_letter(byte) { byte & UPPER } else { 0 }
}

// Is each byte a letter?
pub fn all_letters(bytes: &[u8]) -> bool
    ensures { result ≡ all_letters? bytes.now }
{
    bytes.iter().all(|byte| is_letter(*byte))
}
