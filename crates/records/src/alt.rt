// ALT on a record's line: rows 20 to 23. Each allele is tried in turn, the whole of the first before the second.
ghost use Rattle.std.specs.Prelude.{true, ◌≡◌};
ghost use Rattle.records.specs.Alt.{allele_rows, alt_rows};
ghost use Rattle.records.specs.Row.{first_row, told};

use crate::line::Record;
use crate::row::LineFault;
use bases::letter::all_letters;
use bases::same::same_bases;
use fields::allele::is_right_size;
use fields::bytes::{COMMA, find};

// The first row from 20 to 22 that holds of an allele that begins at this place, beside REF; or none.
fn allele_fault(at: usize, reference: &[u8], allele: &[u8]) -> Result<(), LineFault>
    ensures { result ≡ told (first_row (allele_rows true at reference.now allele.now)) }
{
    if !is_right_size(allele) {
        return Err(LineFault { number: 20, at });
    }
    if !all_letters(allele) {
        return Err(LineFault { number: 21, at });
    }
    if same_bases(allele, reference) {
        return Err(LineFault { number: 22, at });
    }
    Ok(())
}

impl<'a> Record<'a> {
    // The first row from 20 to 23 that holds; or none.
    pub fn alt_fault(&self) -> Result<(), LineFault>
        ensures { result ≡ told (first_row (alt_rows self.now.line.now)) }
    {
        let reference = self.reference();
        let first_at = self.fields.alt;
        let alt = self.alt();
        let end = find(alt, 0, COMMA);
        let first = &alt[..end];
        allele_fault(first_at, reference, first)?;
        if alt.len() <= end {
            return Ok(());
        }
        let second_at = first_at + end + 1;
        let second = &alt[end + 1..];
        allele_fault(second_at, reference, second)?;
        if same_bases(second, first) {
            return Err(LineFault {
                number: 23,
                at: second_at,
            });
        }
        Ok(())
    }
}
