// Are the lists of a call turned away? The refusal is that of the first row that holds.
ghost use Rattle.std.specs.Prelude.{◌≡◌};
ghost use Rattle.bases.specs.Letter.{bases_of};
ghost use Rattle.card.specs.Mark.{small_room?};
ghost use Rattle.card.specs.Refusal.{passed, fault_in, first_refusal, list_checks, lists_checks};
ghost use Rattle.vcf.specs.List.{judge_text};

use crate::refusal::Refusal;
use bases::reference::is_reference;
use vcf::list::judge;

// Row 1: what is lent as the reference is none.
const NO_REFERENCE: Refusal = Refusal {
    number: 1,
    list: 0,
    line: 0,
    place: 0,
};

// Row 2: lent room is too small.
const TOO_SMALL: Refusal = Refusal {
    number: 2,
    list: 0,
    line: 0,
    place: 0,
};

// The rows of list j: the first fault of its text.
fn text_refused(j: u32, reference: &[u8], name: &[u8], text: &[u8]) -> Result<(), Refusal>
    ensures { result ≡ passed (fault_in j (judge_text (bases_of reference.now) name.now text.now)) }
{
    if let Err(fault) = judge(reference, name, text) {
        return Err(Refusal {
            number: fault.number,
            list: j,
            line: fault.line as u32,
            place: fault.place as u32,
        });
    }
    Ok(())
}

// The rows of a call with one list: 1; 2, where lent room is too small; list 1.
pub fn list_refused(reference: &[u8], name: &[u8], text: &[u8], small: bool) -> Result<(), Refusal>
    ensures { result ≡ passed (first_refusal (list_checks reference.now name.now text.now small)) }
{
    if !is_reference(reference) {
        return Err(NO_REFERENCE);
    }
    if small {
        return Err(TOO_SMALL);
    }
    text_refused(1, reference, name, text)
}

// The rows of a call with two: the same, then list 2.
pub fn lists_refused(
    reference: &[u8],
    name: &[u8],
    first: &[u8],
    second: &[u8],
    small: bool,
) -> Result<(), Refusal>
    ensures { result ≡ passed (first_refusal
        (lists_checks reference.now name.now first.now second.now small)) }
{
    list_refused(reference, name, first, small)?;
    text_refused(2, reference, name, second)
}

// The least room that is lent for a plan, in clusters, for entries, and for marks, in bytes.
pub const LEAST: usize = 1_024;

// Row 2: the plan or the marks are too small.
pub fn is_small(plan: usize, marks: usize) -> bool
    ensures { result ≡ small_room? plan marks }
{
    plan < LEAST || marks < LEAST
}
