// The call `card_allele`.
ghost use Rattle.std.specs.Prelude.{◌≡◌, ◌+◌, ◌≤◌};
ghost use Rattle.card.specs.Allele.{shown};
ghost use Rattle.card.specs.Answer.{answer};
ghost use Rattle.card_abi.specs.Answer.{allele_answer};
ghost use Rattle.vcf.specs.List.{longest_text};

use card::allele::{Stands, allele_shown};
use card::answer::Answer;
use vcf::entry::Part;

// The answer for a part: 0 for the reference and 1 for the text, and where the part starts there and how long it is.
fn answer_part(list: u32, part: Part) -> Answer
    requires { part.at + part.len ≤ longest_text }
    ensures { result ≡ answer 0 list part.at 0 part.len }
{
    Answer {
        list,
        line: part.at as u32,
        value: part.len as u32,
        ..Answer::default()
    }
}

// Where allele k of entry i stands. Answered: number 0, list 0 for a part of the reference and 1 for a part of the text, line where that
// part starts there, place 0, and value its length.
#[unsafe(no_mangle)]
pub extern "C" fn card_allele(
    reference: &[u8],
    name: &[u8],
    text: &[u8],
    entry: usize,
    allele: usize,
) -> Answer
    ensures { result ≡ allele_answer (shown reference.now name.now text.now entry allele) }
{
    match allele_shown(reference, name, text, entry, allele) {
        Ok(Stands::InReference(part)) => answer_part(0, part),
        Ok(Stands::InText(part)) => answer_part(1, part),
        Err(refusal) => refusal.into(),
    }
}
