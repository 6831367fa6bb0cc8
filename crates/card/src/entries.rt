// The call `entries`.
ghost use Rattle.std.specs.Prelude.{◌≡◌, length};
ghost use Rattle.card.specs.Entries.{listed, listed_after};

use crate::answer::{Answer, give};
use crate::lists::{LEAST, lists_refused};
use clusters::lists::Lists;
use listed::listed::{Listed, fill_entries};

// Writes the records of two lists' entries in merged order, one an entry, into `entries`, which has to have room for 1,024. Rows: 1; 2;
// list 1; list 2. Value: the number of entries. No other record changes.
pub fn entries(
    reference: &[u8],
    name: &[u8],
    first: &[u8],
    second: &[u8],
    entries: &mut [Listed],
) -> Answer
    ensures { (result ≡ listed reference.now name.now first.now second.now (length entries.old))
        × (entries.new ≡ listed_after reference.now name.now first.now second.now
        entries.old) }
{
    if let Err(refusal) = lists_refused(reference, name, first, second, entries.len() < LEAST) {
        return refusal.into();
    }
    let lists = Lists {
        reference,
        first,
        second,
    };
    give(fill_entries(lists, entries) as u32)
}
