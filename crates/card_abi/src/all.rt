// The call `card_mark_all`.
ghost use Rattle.std.specs.Prelude.{◌≡◌, length};
ghost use Rattle.card.specs.All.{all_answered, all_plan, all_bytes};

use card::all::{AllMarked, mark_all};
use clusters::plan::Cluster;

// Plans two lists and marks every cluster: leaves what `card_plan` and then `card_mark` of each cluster leave. Answered: number 0, the
// number of clusters, and the score summed over the decided ones.
#[unsafe(no_mangle)]
pub extern "C" fn card_mark_all(
    reference: &[u8],
    name: &[u8],
    first: &[u8],
    second: &[u8],
    plan: &mut [Cluster],
    marks: &mut [u8],
) -> AllMarked
    ensures { (result ≡ all_answered reference.now name.now first.now second.now
        (length plan.old) (length marks.old))
        × (plan.new ≡ all_plan reference.now name.now first.now second.now
        plan.old marks.old)
        × (marks.new
        ≡ all_bytes reference.now name.now first.now second.now plan.old
        marks.old) }
{
    mark_all(reference, name, first, second, plan, marks)
}
