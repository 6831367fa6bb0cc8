// The call `card_count`.
ghost use Rattle.std.specs.Prelude.{◌≡◌};
ghost use Rattle.card.specs.Count.{counted};

use card::count::{Counted, count};

// What the marks of two lists count. Answered: number 0, and the six counts, those of list 1 first.
#[unsafe(no_mangle)]
pub extern "C" fn card_count(
    reference: &[u8],
    name: &[u8],
    first: &[u8],
    second: &[u8],
    marks: &[u8],
) -> Counted
    ensures { result ≡ counted reference.now name.now first.now second.now marks.now }
{
    count(reference, name, first, second, marks)
}
