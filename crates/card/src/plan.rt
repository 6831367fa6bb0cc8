// The call `plan`.
ghost use Rattle.std.specs.Prelude.{◌≡◌, length};
ghost use Rattle.card.specs.Plan.{planned, plan_after};

use crate::answer::{Answer, give};
use crate::lists::{LEAST, lists_refused};
use clusters::lists::Lists;
use clusters::plan::{Cluster, fill_plan};

// Cuts two lists into clusters, and writes the plan's records, one a cluster, into `plan`, which has to have room for 1,024. Rows: 1; 2;
// list 1; list 2. Value: the number of clusters. No other record changes.
pub fn plan(
    reference: &[u8],
    name: &[u8],
    first: &[u8],
    second: &[u8],
    plan: &mut [Cluster],
) -> Answer
    ensures { (result ≡ planned reference.now name.now first.now second.now (length plan.old))
        × (plan.new ≡ plan_after reference.now name.now first.now second.now
        plan.old) }
{
    if let Err(refusal) = lists_refused(reference, name, first, second, plan.len() < LEAST) {
        return refusal.into();
    }
    let lists = Lists {
        reference,
        first,
        second,
    };
    give(fill_plan(lists, plan) as u32)
}
