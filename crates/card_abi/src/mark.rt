// The call `card_mark`.
ghost use Rattle.std.specs.Prelude.{◌≡◌, length};
ghost use Rattle.card.specs.Mark.{marked, mark_after};

use card::answer::Answer;
use card::mark::mark;
use clusters::plan::Cluster;

// Marks the entries of one cluster of the plan. Answered: number 0, and value is the cluster's score, or 4,294,967,295 where it is
// undecided.
#[unsafe(no_mangle)]
pub extern "C" fn card_mark(
    reference: &[u8],
    name: &[u8],
    first: &[u8],
    second: &[u8],
    plan: &[Cluster],
    cluster: usize,
    marks: &mut [u8],
) -> Answer
    ensures { (result ≡ marked reference.now name.now first.now second.now plan.now cluster
        (length marks.old))
        × (marks.new
        ≡ mark_after reference.now name.now first.now second.now plan.now cluster
        marks.old) }
{
    mark(reference, name, first, second, plan, cluster, marks)
}
