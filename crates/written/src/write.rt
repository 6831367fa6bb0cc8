// A record's line, written in normal form. Only POS, REF and ALT are replaced, REF and ALT in upper case; the other bytes of the line stay.
ghost use Rattle.std.specs.Prelude.{◌≤◌, length, T};
ghost use Rattle.bases.specs.Letter.{bases_of};
ghost use Rattle.bases.specs.Place.{pos_of};
ghost use Rattle.bases.specs.Wrote.{HasRoom, Wrote};
ghost use Rattle.fields.specs.Field.{ten_fields?};
ghost use Rattle.fields.specs.Pos.{largest_pos};
ghost use Rattle.normal.specs.Spelled.{bases_spelled, OnBoth};
ghost use Rattle.written.specs.Put.{AltsOn, FormOn, front_with, back_with, line_with};
ghost use Rattle.written.specs.Written.{alts_spelled};

use crate::put::put_decimal;
use bases::place::{Place, Pos, pos_of};
use bases::put::Writer;
use bases::reference::put_stretch;
use fields::bytes::{COMMA, LF, TAB, find};
use fields::field::fields_of;
use normal::entry::{NormalEntry, Spelled};

// Writes an allele that starts at `start` on the reference.
fn put_spelled(reference: &[u8], line: &[u8], start: Place, allele: Spelled, out: &mut Writer)
    requires { OnBoth (bases_of reference.now) line.now start allele
        × HasRoom out.old (length (bases_spelled (bases_of reference.now) line.now start allele)) }
    ensures { Wrote out.old (bases_spelled (bases_of reference.now) line.now start allele) out.new }
{
    put_stretch(reference, start.0, allele.front, out);
    let own = allele.own;
    out.bases(&line[own.at..own.at + own.len]);
}

// Writes the ALTs of a normal form that has so many. The line, the number of its ALTs and the normal form are no struct with what
// `put_back` and `put_line` ask of them: it would ask more of this function's callers.
pub fn put_alts(reference: &[u8], line: &[u8], alts: usize, normal: NormalEntry, out: &mut Writer)
    requires { AltsOn (bases_of reference.now) line.now normal
        × HasRoom out.old (length (alts_spelled (bases_of reference.now) line.now alts normal)) }
    ensures { Wrote out.old (alts_spelled (bases_of reference.now) line.now alts normal) out.new }
{
    put_spelled(reference, line, normal.start, normal.first, out);
    if alts == 2 {
        out.byte(COMMA);
        put_spelled(reference, line, normal.start, normal.second, out);
    }
}

// Writes a line of ten fields up to its REF, with another POS.
pub fn put_front(line: &[u8], pos: Pos, out: &mut Writer)
    requires { T (ten_fields? line.now)
        × (pos.0 ≤ largest_pos)
        × HasRoom out.old (length (front_with line.now pos)) }
    ensures { Wrote out.old (front_with line.now pos) out.new }
{
    let fields = fields_of(line);
    let end = find(line, fields.pos, TAB);
    out.bytes(&line[..fields.pos]);
    put_decimal(pos.0, out);
    out.bytes(&line[end..fields.reference]);
}

// Writes a line of ten fields from its REF on, with the REF and so many ALTs of a normal form, and its LF.
pub fn put_back(reference: &[u8], line: &[u8], alts: usize, normal: NormalEntry, out: &mut Writer)
    requires { T (ten_fields? line.now)
        × FormOn (bases_of reference.now) line.now normal
        × HasRoom out.old (length (back_with (bases_of reference.now) line.now alts normal)) }
    ensures { Wrote out.old (back_with (bases_of reference.now) line.now alts normal) out.new }
{
    let rest = find(line, fields_of(line).alt, TAB);
    put_stretch(reference, normal.start.0, normal.span, out);
    out.byte(TAB);
    put_alts(reference, line, alts, normal, out);
    out.bytes(&line[rest..]);
    out.byte(LF);
}

// Writes a line of ten fields with the POS, the REF and so many ALTs of a normal form, and its LF.
pub fn put_line(reference: &[u8], line: &[u8], alts: usize, normal: NormalEntry, out: &mut Writer)
    requires { T (ten_fields? line.now)
        × ((pos_of normal.start).0 ≤ largest_pos)
        × FormOn (bases_of reference.now) line.now normal
        × HasRoom out.old (length (line_with (bases_of reference.now) line.now alts normal)) }
    ensures { Wrote out.old (line_with (bases_of reference.now) line.now alts normal) out.new }
{
    put_front(line, pos_of(normal.start), out);
    put_back(reference, line, alts, normal, out);
}
