// The plan: a lent slice of small records, one a cluster. A walk finds the records; only `fill_plan` and `is_plan` touch the slice.
ghost use Rattle.std.specs.Prelude.{◌≡◌, ◌+◌, ◌≤◌, ◌<◌, ◌^◌, length};
ghost use Rattle.std.specs.Iterator.{YieldsFirst, item_count};
ghost use Rattle.bases.specs.Letter.{bases_of};
ghost use Rattle.bases.specs.Put.{put};
ghost use Rattle.clusters.specs.Heads.{Ready, start_heads, items_from};
ghost use Rattle.clusters.specs.Lent.{is_plan?};
ghost use Rattle.clusters.specs.Plan.{plan_of};
ghost use Rattle.clusters.specs.Walk.{walk_from, first_walk, next_walk, Walks, clusters_left};

use crate::cluster::next_cluster;
use crate::heads::{Heads, is_done, start_heads};
use crate::lists::Lists;

// A cluster by its first entry in merged order and its number of entries.
#[repr(C)]
#[derive(Clone, Copy, PartialEq, Eq)]
pub struct Cluster {
    pub first: u32,
    pub count: u32,
}

// A step of the walk from cluster to cluster: is there a cluster, its record, and the cursors behind it.
#[derive(Clone, Copy)]
pub struct Walk {
    pub more: bool,
    pub cluster: Cluster,
    pub heads: Heads,
}

// A walk over the clusters of two lists from two cursors on; `entry` is the number of the next entry in merged order.
#[derive(Clone, Copy)]
pub struct Clusters<'a> {
    lists: Lists<'a>,
    heads: Heads,
    entry: u32,
}

// The step at the cursors, whose next entry is entry `i`. Where none is left, the record has no entry and the cursors stay.
fn walk_from(reference: &[u8], first: &[u8], second: &[u8], i: u32, heads: Heads) -> Walk
    requires { Ready (bases_of reference.now) first.now second.now heads
        × (i + length (items_from first.now second.now heads) < 2 ^ 32) }
    ensures { result ≡ walk_from (bases_of reference.now) first.now second.now i heads }
{
    if is_done(first, second, heads) {
        return Walk {
            more: false,
            cluster: Cluster { first: i, count: 0 },
            heads,
        };
    }
    let found = next_cluster(reference, first, second, heads);
    let count = found.count as u32;
    Walk {
        more: true,
        cluster: Cluster { first: i, count },
        heads: found.heads,
    }
}

// The first step.
pub fn first_walk(reference: &[u8], first: &[u8], second: &[u8]) -> Walk
    requires { Ready (bases_of reference.now) first.now second.now (start_heads first.now second.now) }
    ensures { result ≡ first_walk (bases_of reference.now) first.now second.now }
{
    walk_from(reference, first, second, 0, start_heads(first, second))
}

// The step behind one.
pub fn next_walk(reference: &[u8], first: &[u8], second: &[u8], walk: Walk) -> Walk
    requires { Ready (bases_of reference.now) first.now second.now walk.heads
        × (walk.cluster.first + walk.cluster.count + length (items_from first.now second.now walk.heads) < 2 ^ 32) }
    ensures { result ≡ next_walk (bases_of reference.now) first.now second.now walk }
{
    walk_from(
        reference,
        first,
        second,
        walk.cluster.first + walk.cluster.count,
        walk.heads,
    )
}

// A walk over all clusters of two lists.
pub fn all_clusters(lists: Lists) -> Clusters
    ensures { Walks result
        × (clusters_left result ≡ plan_of (bases_of lists.entry.reference.now) lists.entry.first.now lists.entry.second.now) }
{
    Clusters {
        lists,
        heads: start_heads(lists.first, lists.second),
        entry: 0,
    }
}

impl<'a> Iterator for Clusters<'a> {
    type Item = Cluster;

    ghost can_next = { Walks };

    ghost next_gives = { YieldsFirst clusters_left };

    ghost remaining = { item_count clusters_left };

    fn next(&mut self) -> Option<Cluster> {
        let walk = walk_from(
            self.lists.reference,
            self.lists.first,
            self.lists.second,
            self.entry,
            self.heads,
        );
        if !walk.more {
            return None;
        }
        let cluster = walk.cluster;
        self.heads = walk.heads;
        self.entry += cluster.count;
        Some(cluster)
    }
}

// Writes the plan of two lists into the lent records, one a cluster, and says how many clusters there are. Nothing else of the records
// changes. No function is generic over this and `fill_entries`: what a walk yields and that it fits would be three clauses more, for a loop
// of two lines.
pub fn fill_plan(lists: Lists, plan: &mut [Cluster]) -> usize
    requires { length (plan_of (bases_of lists.reference.now) lists.first.now lists.second.now) ≤ length plan.old }
    ensures { (result ≡ length (plan_of (bases_of lists.entry.reference.now) lists.entry.first.now lists.entry.second.now))
        × (plan.new ≡ put plan.old 0
        (plan_of (bases_of lists.entry.reference.now) lists.entry.first.now lists.entry.second.now)) }
{
    // `k` is what is told, so it is counted here: `enumerate` would be no plainer, since it does not say how many there were.
    let mut k: usize = 0;
    for cluster in all_clusters(lists) {
        plan[k] = cluster;
        k += 1;
    }
    k
}

// Are the records given the plan of these lists? Only the first ones, as many as there are clusters, are judged.
pub fn is_plan(lists: Lists, plan: &[Cluster]) -> bool
    requires { length (plan_of (bases_of lists.reference.now) lists.first.now lists.second.now) ≤ length plan.now }
    ensures { result ≡ is_plan? (plan_of (bases_of lists.entry.reference.now) lists.entry.first.now lists.entry.second.now)
        plan.now }
{
    for (cluster, given) in all_clusters(lists).zip(plan) {
        if cluster != *given {
            return false;
        }
    }
    true
}
