// The call `card_entries`.
ghost use Rattle.std.specs.Prelude.{◌≡◌, length};
ghost use Rattle.card.specs.Entries.{listed, listed_after};

use card::answer::Answer;
use card::entries::entries as list_entries;
use listed::listed::Listed;

// Writes the records of two lists' entries in merged order into `entries`. Answered: number 0, and value is the number of entries.
#[unsafe(no_mangle)]
pub extern "C" fn card_entries(
    reference: &[u8],
    name: &[u8],
    first: &[u8],
    second: &[u8],
    entries: &mut [Listed],
) -> Answer
    ensures { (result ≡ listed reference.now name.now first.now second.now (length entries.old))
        × (entries.new ≡ listed_after reference.now name.now first.now second.now
        entries.old) }
{
    list_entries(reference, name, first, second, entries)
}
