// The entries of a list, read one at a time where they are needed.
ghost use Rattle.std.specs.Prelude.{◌≡◌, ◌+◌, ◌≤◌, ◌<◌, ◌^◌, T, length};
ghost use Rattle.records.specs.Record.{pos_on};
ghost use Rattle.vcf.specs.Entry.{line_at, next_line, bytes_of, last_alt};
ghost use Rattle.vcf.specs.Entry.{entry_of, records_at, lines_above, readable?, readable_from?, record_at};

use crate::lines::lines_of;
use bases::place::Pos;
use fields::allele::alt_count;
use fields::bytes::{COMMA, LF, TAB, find};
use fields::field::field_from;
use fields::header::is_header_line;
use fields::pos::read_pos;
use records::line::record_on;

// A part of a text: where it begins and how many bytes it has.
#[derive(Clone, Copy)]
pub struct Part {
    pub at: usize,
    pub len: usize,
}

impl Part {
    // The bytes of the part.
    pub fn bytes(self, text: &[u8]) -> &[u8]
        requires { self.at + self.len ≤ length text.now }
        ensures { result.now ≡ bytes_of text.now self }
    {
        &text[self.at..self.at + self.len]
    }
}

// An entry: POS, REF and the ALTs as parts of the list's text (`second` is empty where there is one ALT), the number of ALTs, and the
// alleles of the two copies.
#[derive(Clone, Copy)]
pub struct Entry {
    pub pos: Pos,
    pub reference: Part,
    pub first: Part,
    pub second: Part,
    pub alts: usize,
    pub copy0: usize,
    pub copy1: usize,
}

impl Entry {
    // The last ALT.
    pub fn last_alt(self) -> Part
        ensures { result ≡ last_alt self }
    {
        if self.alts == 2 {
            self.second
        } else {
            self.first
        }
    }
}

// Where the line behind the one at `at` begins.
pub fn next_line(text: &[u8], at: usize) -> usize
    requires { at < length text.now }
    ensures { result ≡ next_line text.now at }
{
    find(text, at, LF) + 1
}

// How many lines stand above the records, and how many bytes they take with the LF of each.
fn above(text: &[u8]) -> (usize, usize)
    ensures lines { result.0 ≡ lines_above text.now }
    ensures bytes { result.1 ≡ records_at text.now }
{
    let mut lines: usize = 0;
    let mut bytes: usize = 0;
    for line in lines_of(text) {
        lines += 1;
        bytes += line.len() + 1;
        if !is_header_line(line) {
            return (lines, bytes);
        }
    }
    (lines, bytes)
}

// Where the records begin.
pub fn records_at(text: &[u8]) -> usize
    ensures { result ≡ records_at text.now }
{
    above(text).1
}

// How many lines stand above the records.
pub fn lines_above(text: &[u8]) -> usize
    ensures { result ≡ lines_above text.now }
{
    above(text).0
}

// Where record i begins; not below the text's length where there is none, as `record_at` of specs/Entry.antt has it.
pub fn record_at(text: &[u8], i: usize) -> usize
    ensures { result ≡ record_at text.now i }
{
    let mut at = records_at(text);
    for _ in 0..i {
        if text.len() <= at {
            return at;
        }
        at = next_line(text, at);
    }
    at
}

// The entry on a record's line that begins at `at` in its text.
fn entry_on(line: &[u8], at: usize) -> Entry
    requires { T (readable? line.now)
        × (at + length line.now + 1 < 2 ^ 64) }
    ensures { result ≡ entry_of line.now at }
{
    let record = record_on(line);
    let alt = record.alt();
    let alt_at = at + record.fields.alt;
    let end = find(alt, 0, COMMA);
    let genotype = record.genotype();
    Entry {
        pos: record.pos(),
        reference: Part {
            at: at + record.fields.reference,
            len: record.reference().len(),
        },
        first: Part {
            at: alt_at,
            len: end,
        },
        second: Part {
            at: alt_at + end + 1,
            len: alt.len().saturating_sub(end + 1),
        },
        alts: alt_count(alt),
        copy0: (genotype[0] - b'0') as usize,
        copy1: (genotype[2] - b'0') as usize,
    }
}

// The entry on the line that begins at `at`.
pub fn entry_at(text: &[u8], at: usize) -> Entry
    requires { (at < length text.now)
        × T (readable_from? text.now at) }
    ensures { result ≡ entry_of (line_at text.now at) at }
{
    let end = find(text, at, LF);
    entry_on(&text[at..end], at)
}

// POS of the record whose line begins at `at`. No more of the line is looked at.
pub fn pos_at(text: &[u8], at: usize) -> Pos
    requires { (at < length text.now)
        × T (readable_from? text.now at) }
    ensures { result ≡ pos_on (line_at text.now at) }
{
    let from = find(text, at, TAB) + 1;
    read_pos(field_from(text, from))
}
