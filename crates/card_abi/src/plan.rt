// The call `card_plan`.
ghost use Rattle.std.specs.Prelude.{◌≡◌, length};
ghost use Rattle.card.specs.Plan.{planned, plan_after};

use card::answer::Answer;
use card::plan::plan as plan_lists;
use clusters::plan::Cluster;

// Cuts two lists into clusters, and writes the plan into `plan`. Answered: number 0, and value is the number of clusters.
#[unsafe(no_mangle)]
pub extern "C" fn card_plan(
    reference: &[u8],
    name: &[u8],
    first: &[u8],
    second: &[u8],
    plan: &mut [Cluster],
) -> Answer
    ensures { (result ≡ planned reference.now name.now first.now second.now (length plan.old))
        × (plan.new ≡ plan_after reference.now name.now first.now second.now
        plan.old) }
{
    plan_lists(reference, name, first, second, plan)
}
