// The call `mark`.
ghost use Rattle.std.specs.Prelude.{◌≡◌, ◌≤◌, length};
ghost use Rattle.bases.specs.Letter.{bases_of};
ghost use Rattle.bases.specs.Pick.{pick};
ghost use Rattle.bases.specs.Reference.{longest_reference};
ghost use Rattle.marks.specs.Marks.{clusters_of, asked_for, marks_after};
ghost use Rattle.clusters.specs.Merged.{merged_items};
ghost use Rattle.card.specs.Mark.{marked, answer_asked, mark_after};

use crate::answer::{Answer, give, refuse};
use crate::lists::{is_small, lists_refused};
use clusters::lists::Lists;
use clusters::plan::{Cluster, is_plan};
use marks::mark::{Marked, mark_one};

// The value that says that a cluster is undecided.
pub const UNDECIDED: u32 = 4_294_967_295;

// Marks one cluster of two accepted lists, where the plan given is theirs. Rows: 17; 16. Value: the cluster's score, or UNDECIDED.
fn mark_planned(lists: Lists, same: bool, cluster: usize, marks: &mut [u8]) -> Answer
    requires { (length (bases_of lists.reference.now) ≤ longest_reference)
        × (length (merged_items lists.first.now lists.second.now) ≤ length marks.old) }
    ensures { (result ≡ answer_asked same
        (asked_for (bases_of lists.entry.reference.now)
        (clusters_of (bases_of lists.entry.reference.now) lists.entry.first.now lists.entry.second.now) cluster))
        × (marks.new
        ≡ pick same (marks_after (bases_of lists.entry.reference.now)
        (clusters_of (bases_of lists.entry.reference.now) lists.entry.first.now lists.entry.second.now) cluster marks.old)
        marks.old) }
{
    if !same {
        return refuse(17, 0, 0, 0);
    }
    match mark_one(lists, cluster, marks) {
        Marked::NoCluster => refuse(16, 0, 0, 0),
        Marked::Undecided => give(UNDECIDED),
        Marked::Scored(score) => give(score as u32),
    }
}

// Marks the entries of one cluster: `+`, `-` or `0` as the best pair over the two whole lists has it, or `?` where the cluster is
// undecided. `marks` has to have room for 1,024. Rows: 1; 2; list 1; list 2; 17; 16. Value: the cluster's score, or UNDECIDED. No other
// mark changes.
pub fn mark(
    reference: &[u8],
    name: &[u8],
    first: &[u8],
    second: &[u8],
    plan: &[Cluster],
    cluster: usize,
    marks: &mut [u8],
) -> Answer
    ensures { (result ≡ marked reference.now name.now first.now second.now plan.now cluster
        (length marks.old))
        × (marks.new
        ≡ mark_after reference.now name.now first.now second.now plan.now cluster
        marks.old) }
{
    let small = is_small(plan.len(), marks.len());
    if let Err(refusal) = lists_refused(reference, name, first, second, small) {
        return refusal.into();
    }
    let lists = Lists {
        reference,
        first,
        second,
    };
    let same = is_plan(lists, plan);
    mark_planned(lists, same, cluster, marks)
}
