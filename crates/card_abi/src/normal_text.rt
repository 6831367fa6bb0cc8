// The call `card_normal`.
ghost use Rattle.std.specs.Prelude.{◌≡◌, length};
ghost use Rattle.card.specs.Normal.{written, normal_after};

use card::answer::Answer;
use card::normal_text::normal;

// Writes the list in normal form into `out`. Answered: number 0, and value is how many bytes were written.
#[unsafe(no_mangle)]
pub extern "C" fn card_normal(reference: &[u8], name: &[u8], text: &[u8], out: &mut [u8]) -> Answer
    ensures { (result ≡ written reference.now name.now text.now (length out.old))
        × (out.new ≡ normal_after reference.now name.now text.now out.old) }
{
    normal(reference, name, text, out)
}
