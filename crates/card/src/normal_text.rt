// The call `normal`: a list, written in normal form.
ghost use Rattle.std.specs.Prelude.{◌≡◌, length};
ghost use Rattle.card.specs.Normal.{written, normal_after};

use crate::answer::{Answer, give};
use crate::lists::list_refused;
use written::list::write_list;

// Writes the list in normal form into `out`, which has to be as long as the text. Rows: 1; 2; the list's. Value: the bytes written. Nothing
// else of `out` changes.
pub fn normal(reference: &[u8], name: &[u8], text: &[u8], out: &mut [u8]) -> Answer
    ensures { (result ≡ written reference.now name.now text.now (length out.old))
        × (out.new ≡ normal_after reference.now name.now text.now out.old) }
{
    if let Err(refusal) = list_refused(reference, name, text, out.len() < text.len()) {
        return refusal.into();
    }
    give(write_list(reference, text, out) as u32)
}
