// The rows on a record's line, in their order: 4, 5, 15, 6 to 9, 20 to 23 (alt.rt), 11 to 14.
ghost use Rattle.std.specs.Prelude.{T, false, ◌≡◌, ◌≤◌};
ghost use Rattle.bases.specs.Letter.{bases_of};
ghost use Rattle.fields.specs.Field.{field, ten_fields?};
ghost use Rattle.records.specs.Record.{too_long?, chrom_wrong?, pos_on, ref_wrong?, genotype_wrong?, no_alt?, off_reference?};
ghost use Rattle.records.specs.Record.{later_rows, field_rows, record_rows};
ghost use Rattle.records.specs.Row.{first_row, told};

use crate::line::{Record, record_on};
use crate::row::LineFault;
use bases::place::{Pos, place_of};
use bases::reference::{base_count, part_agrees};
use fields::allele::{alt_count, is_allele};
use fields::bytes::begins;
use fields::field::{field_from, has_ten_fields};
use fields::genotype::{copies_wrong, format_wrong};

// The most bytes of a line, without its LF.
pub const LONGEST_LINE: usize = 1_024;

// The most records of a list.
pub const MOST_RECORDS: usize = 512;

// Row 4.
pub fn is_too_long(line: &[u8]) -> bool
    ensures { result ≡ too_long? line.now }
{
    LONGEST_LINE < line.len()
}

// Row 7: is CHROM not the name?
fn chrom_wrong(name: &[u8], line: &[u8]) -> bool
    ensures { result ≡ chrom_wrong? name.now line.now }
{
    field_from(line, 0) != name
}

impl<'a> Record<'a> {
    // Row 9: is REF no allele?
    fn ref_wrong(&self) -> bool
        ensures { result ≡ ref_wrong? self.now.line.now }
    {
        !is_allele(self.reference())
    }

    // Row 11: is FORMAT or the genotype wrong?
    fn genotype_wrong(&self) -> bool
        ensures { result ≡ genotype_wrong? self.now.line.now }
    {
        format_wrong(self.format()) || copies_wrong(alt_count(self.alt()), self.genotype())
    }

    // Row 12: is the genotype 0/0? It is not wrong.
    fn has_no_alt(&self) -> bool
        requires { genotype_wrong? self.now.line.now ≡ false }
        ensures { result ≡ no_alt? self.now.line.now }
    {
        let genotype = self.genotype();
        genotype[0] == b'0' && genotype[2] == b'0'
    }

    // Row 13: does REF at this POS run past the reference or differ from it?
    fn is_off_reference(&self, reference: &[u8], pos: Pos) -> bool
        requires { 1 ≤ pos.0 }
        ensures { result ≡ off_reference? (bases_of reference.now) pos (field 3 self.now.line.now) }
    {
        let bases = self.reference();
        let from = place_of(pos).0;
        let count = base_count(reference);
        count < from
            || count - from < bases.len()
            || !part_agrees(reference, from, bases, 0, bases.len())
    }

    // The first row from 11 to 14 that holds at this POS, behind a record at POS `last`; or none.
    fn later_fault(&self, reference: &[u8], pos: Pos, last: Pos) -> Result<(), LineFault>
        requires { (pos ≡ pos_on self.now.line.now)
            × (1 ≤ pos.0) }
        ensures { result ≡ told (first_row (later_rows (bases_of reference.now) last self.now.line.now)) }
    {
        if self.genotype_wrong() {
            return Err(LineFault { number: 11, at: 0 });
        }
        if self.has_no_alt() {
            return Err(LineFault { number: 12, at: 0 });
        }
        if self.is_off_reference(reference, pos) {
            return Err(LineFault { number: 13, at: 0 });
        }
        if pos < last {
            return Err(LineFault { number: 14, at: 0 });
        }
        Ok(())
    }
}

// The first row that holds on the fields of a line of ten, behind a record at POS `last`; or none. CHROM is read before the line is split.
fn field_fault(reference: &[u8], name: &[u8], last: Pos, line: &[u8]) -> Result<(), LineFault>
    requires { T (ten_fields? line.now) }
    ensures { result ≡ told (first_row (field_rows (bases_of reference.now) name.now last line.now)) }
{
    if chrom_wrong(name, line) {
        return Err(LineFault { number: 7, at: 0 });
    }
    let record = record_on(line);
    let pos = record.pos();
    if pos == Pos(0) {
        return Err(LineFault { number: 8, at: 0 });
    }
    if record.ref_wrong() {
        return Err(LineFault { number: 9, at: 0 });
    }
    record.alt_fault()?;
    record.later_fault(reference, pos, last)
}

// The first row that holds on a line below the column line, behind so many records, the last at POS `last`; or none.
pub fn record_fault(
    reference: &[u8],
    name: &[u8],
    records: usize,
    last: Pos,
    line: &[u8],
) -> Result<(), LineFault>
    ensures { result ≡ told (first_row (record_rows (bases_of reference.now) name.now records last line.now)) }
{
    if is_too_long(line) {
        return Err(LineFault { number: 4, at: 0 });
    }
    if begins(b"#", line) {
        return Err(LineFault { number: 5, at: 0 });
    }
    if MOST_RECORDS <= records {
        return Err(LineFault { number: 15, at: 0 });
    }
    if !has_ten_fields(line) {
        return Err(LineFault { number: 6, at: 0 });
    }
    field_fault(reference, name, last, line)
}
