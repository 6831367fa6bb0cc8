// The calls `allele` and `allele_refusal`: an allele of an entry, shown as a part of the reference or of the list's text.
ghost use Rattle.std.specs.Prelude.{◌≡◌, ◌≤◌};
ghost use Rattle.card.specs.Allele.{allele_refusal, shown_of, stands_of, shown, bytes_shown, ptr_shown};

use crate::lists::list_refused;
use crate::refusal::Refusal;
use bases::place::place_of;
use vcf::entry::{Entry, Part, entry_at, record_at};

// Where an allele stands: a part of the reference, or a part of the list's text.
#[derive(Clone, Copy)]
pub enum Stands {
    InReference(Part),
    InText(Part),
}

// Row 18: there is no such entry, or no such allele of it.
const NO_ALLELE: Refusal = Refusal {
    number: 18,
    list: 0,
    line: 0,
    place: 0,
};

// Where allele k of an entry stands. Its POS is one.
fn stands_at(entry: Entry, k: usize) -> Stands
    requires { 1 ≤ entry.pos.0 }
    ensures { Ok result ≡ stands_of (shown_of entry k) }
{
    match k {
        0 => Stands::InReference(Part {
            at: place_of(entry.pos).0,
            len: entry.reference.len,
        }),
        1 => Stands::InText(entry.first),
        _ => Stands::InText(entry.second),
    }
}

// Where allele k of entry i stands, or why it is not shown. Rows: 1; the list's; 18.
pub fn allele_shown(
    reference: &[u8],
    name: &[u8],
    text: &[u8],
    entry: usize,
    allele: usize,
) -> Result<Stands, Refusal>
    ensures { result ≡ stands_of (shown reference.now name.now text.now entry allele) }
{
    list_refused(reference, name, text, false)?;
    let at = record_at(text, entry);
    if text.len() <= at {
        return Err(NO_ALLELE);
    }
    let e = entry_at(text, at);
    if e.alts < allele {
        return Err(NO_ALLELE);
    }
    Ok(stands_at(e, allele))
}

// Why allele k of entry i is not shown: four numbers, zeros where `allele` on the same input shows it.
pub fn allele_refusal(
    reference: &[u8],
    name: &[u8],
    text: &[u8],
    entry: usize,
    allele: usize,
) -> Refusal
    ensures { result ≡ allele_refusal reference.now name.now text.now entry allele }
{
    match allele_shown(reference, name, text, entry, allele) {
        Ok(_) => Refusal::default(),
        Err(refusal) => refusal,
    }
}

// Allele k of entry i: a part of the reference where k is 0, else a part of the text. Where that is refused, the empty part at the start of
// the reference. Nothing is copied.
pub fn allele<'a>(
    reference: &'a [u8],
    name: &[u8],
    text: &'a [u8],
    entry: usize,
    allele: usize,
) -> &'a [u8]
    ensures { let s = shown reference.now name.now text.now entry allele in (result.now ≡ bytes_shown reference.now text.now s)
        × (result.ref_ptr ≡ ptr_shown reference.entry.ref_ptr text.entry.ref_ptr s) }
{
    match allele_shown(reference, name, text, entry, allele) {
        Ok(Stands::InReference(part)) => &reference[part.at..part.at + part.len],
        Ok(Stands::InText(part)) => &text[part.at..part.at + part.len],
        Err(_) => &reference[..0],
    }
}
