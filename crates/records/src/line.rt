// A record's line: ten fields, none of them empty, and where those that are read begin.
ghost use Rattle.std.specs.Prelude.{◌≡◌, T, true};
ghost use Rattle.fields.specs.Field.{field, ten_fields?, fields_of};
ghost use Rattle.records.specs.Record.{pos_on, genotype_on};

use bases::place::Pos;
use fields::field::{Fields, field_from, fields_of};
use fields::genotype::genotype_of;
use fields::pos::read_pos;

// A line of ten fields, with where its fields begin.
#[derive(Clone, Copy)]
pub struct Record<'a> {
    pub line: &'a [u8],
    pub fields: Fields,
    ghost ten: { ten_fields? line.now ≡ true },
    ghost read: { fields ≡ fields_of line.now },
}

// The record on a line of ten fields.
pub fn record_on(line: &[u8]) -> Record
    requires { T (ten_fields? line.now) }
    ensures { result.line.now ≡ line.now }
{
    Record {
        line,
        fields: fields_of(line),
    }
}

impl<'a> Record<'a> {
    // CHROM.
    pub fn chrom(&self) -> &'a [u8]
        ensures { result.now ≡ field 0 self.now.line.now }
    {
        field_from(self.line, 0)
    }

    // POS; none where row 8 holds.
    pub fn pos(&self) -> Pos
        ensures { result ≡ pos_on self.now.line.now }
    {
        read_pos(field_from(self.line, self.fields.pos))
    }

    // REF.
    pub fn reference(&self) -> &'a [u8]
        ensures { result.now ≡ field 3 self.now.line.now }
    {
        field_from(self.line, self.fields.reference)
    }

    // ALT.
    pub fn alt(&self) -> &'a [u8]
        ensures { result.now ≡ field 4 self.now.line.now }
    {
        field_from(self.line, self.fields.alt)
    }

    // FORMAT.
    pub fn format(&self) -> &'a [u8]
        ensures { result.now ≡ field 8 self.now.line.now }
    {
        field_from(self.line, self.fields.format)
    }

    // The genotype.
    pub fn genotype(&self) -> &'a [u8]
        ensures { result.now ≡ genotype_on self.now.line.now }
    {
        genotype_of(field_from(self.line, self.fields.sample))
    }
}
