// The call `mark_all`: plans two lists and marks every cluster.
ghost use Rattle.std.specs.Prelude.{◌≡◌, length};
ghost use Rattle.card.specs.All.{all_marked, all_answered, empty_plan, all_plan, all_bytes};
ghost use Rattle.card.specs.Answer.{refused_answer};
ghost use Rattle.card.specs.Refusal.{least_room};

use crate::lists::{LEAST, is_small, lists_refused};
use crate::refusal::Refusal;
use clusters::lists::Lists;
use clusters::plan::{Cluster, fill_plan};
use marks::mark::mark_every;

// What is answered: the four numbers of a refusal, or zeros; the number of clusters; and the score summed over the decided ones.
#[repr(C)]
#[derive(Clone, Copy, Default)]
pub struct AllMarked {
    pub number: u32,
    pub list: u32,
    pub line: u32,
    pub place: u32,
    pub clusters: u32,
    pub score: u32,
}

// The answer of a refused call: the four numbers of the refusal, and zeros.
impl From<Refusal> for AllMarked {
    ghost from_gives = { λ refusal answer. answer ≡ all_marked (refused_answer refusal) 0 0 };

    fn from(refusal: Refusal) -> AllMarked {
        AllMarked {
            number: refusal.number,
            list: refusal.list,
            line: refusal.line,
            place: refusal.place,
            ..AllMarked::default()
        }
    }
}

// Plans two lists and marks every cluster: leaves what `plan` and then `mark` of each cluster leave. `plan` and `marks` have to have room
// for 1,024. Rows: 1; 2; list 1; list 2.
pub fn mark_all(
    reference: &[u8],
    name: &[u8],
    first: &[u8],
    second: &[u8],
    plan: &mut [Cluster],
    marks: &mut [u8],
) -> AllMarked
    ensures { (result ≡ all_answered reference.now name.now first.now second.now
        (length plan.old) (length marks.old))
        × (plan.new ≡ all_plan reference.now name.now first.now second.now
        plan.old marks.old)
        × (marks.new
        ≡ all_bytes reference.now name.now first.now second.now plan.old
        marks.old) }
{
    let small = is_small(plan.len(), marks.len());
    if let Err(refusal) = lists_refused(reference, name, first, second, small) {
        return refusal.into();
    }
    let lists = Lists {
        reference,
        first,
        second,
    };
    let clusters = fill_plan(lists, plan) as u32;
    let score = mark_every(lists, marks) as u32;
    AllMarked {
        clusters,
        score,
        ..AllMarked::default()
    }
}

// What `mark_all` answers, and the plan that it wrote.
#[derive(Clone, Copy)]
pub struct MarkedLists {
    pub answer: AllMarked,
    pub plan: [Cluster; LEAST],
}

// The same for programs: `mark_all` on a plan of its own, which is returned.
pub fn marked_lists(
    reference: &[u8],
    name: &[u8],
    first: &[u8],
    second: &[u8],
    marks: &mut [u8],
) -> MarkedLists
    ensures { (result.answer ≡ all_answered reference.now name.now first.now second.now least_room
        (length marks.old))
        × (result.plan ≡ all_plan reference.now name.now first.now second.now empty_plan
        marks.old)
        × (marks.new
        ≡ all_bytes reference.now name.now first.now second.now empty_plan
        marks.old) }
{
    let mut plan = [Cluster { first: 0, count: 0 }; LEAST];
    let answer = mark_all(reference, name, first, second, &mut plan, marks);
    MarkedLists { answer, plan }
}
