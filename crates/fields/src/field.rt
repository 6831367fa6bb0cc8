// The fields of a line: row 6.
ghost use Rattle.std.specs.Prelude.{◌≡◌, ◌+◌, ◌≤◌, T, length};
ghost use Rattle.fields.specs.Field.{skip, field_from, ten_fields?, fields_of};

use crate::bytes::{TAB, find};

// How many fields a record has.
pub const FIELD_COUNT: usize = 10;

// Where the field `count` fields behind the one at `from` begins.
pub fn skip_fields(line: &[u8], from: usize, count: usize) -> usize
    requires { (from ≤ length line.now)
        × (count ≤ 10) }
    ensures { result ≡ skip count line.now from }
{
    let mut at = from;
    for _ in 0..count {
        at = find(line, at, TAB) + 1;
    }
    at
}

// The bytes of the field that begins at `at`.
pub fn field_from(line: &[u8], at: usize) -> &[u8]
    requires { at ≤ length line.now }
    ensures { result.now ≡ field_from line.now at }
{
    let end = find(line, at, TAB);
    &line[at..end]
}

// Is the line exactly ten non-empty fields?
pub fn has_ten_fields(line: &[u8]) -> bool
    ensures { result ≡ ten_fields? line.now }
{
    let mut at: usize = 0;
    for _ in 0..FIELD_COUNT {
        let end = find(line, at, TAB);
        if end <= at {
            return false;
        }
        at = end + 1;
    }
    at == line.len() + 1
}

// Where the fields that are read begin: POS, REF, ALT, FORMAT and the sample. (CHROM begins at 0.)
#[derive(Clone, Copy)]
pub struct Fields {
    pub pos: usize,
    pub reference: usize,
    pub alt: usize,
    pub format: usize,
    pub sample: usize,
}

// The fields of a line that has ten.
pub fn fields_of(line: &[u8]) -> Fields
    requires { T (ten_fields? line.now) }
    ensures { result ≡ fields_of line.now }
{
    let pos = skip_fields(line, 0, 1);
    let reference = skip_fields(line, pos, 2);
    let alt = skip_fields(line, reference, 1);
    let format = skip_fields(line, alt, 4);
    let sample = skip_fields(line, format, 1);
    Fields {
        pos,
        reference,
        alt,
        format,
        sample,
    }
}
