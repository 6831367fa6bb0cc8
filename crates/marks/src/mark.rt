// The marks of clusters: those of every cluster, or of the one that is asked for.
ghost use Rattle.std.specs.Prelude.{◌≡◌, ◌+◌, ◌≤◌, length, take, replicate};
ghost use Rattle.bases.specs.Letter.{bases_of};
ghost use Rattle.bases.specs.Put.{put};
ghost use Rattle.bases.specs.Reference.{longest_reference};
ghost use Rattle.donors.specs.Table.{most};
ghost use Rattle.clusters.specs.Heads.{items_from, variants_from};
ghost use Rattle.marks.specs.Markable.{Markable};
ghost use Rattle.marks.specs.Marks.{QUESTION, marks_of, marked_of, told_score, clusters_of, clusters_from, all_marks, total_score};
ghost use Rattle.marks.specs.Marks.{asked_for, marks_after};
ghost use Rattle.clusters.specs.Merged.{merged_items};

use crate::row::put_rows;
use crate::skip::skip_clusters;
use clusters::cluster::next_cluster;
use clusters::heads::{Heads, is_done, start_heads};
use clusters::lists::Lists;
use donors::table::{MOST, Row};
use matching::search::best_choices;

// What is told of a cluster: there is no such cluster; it is undecided; its score.
#[derive(Clone, Copy, Debug, PartialEq, Eq)]
pub enum Marked {
    NoCluster,
    Undecided,
    Scored(usize),
}

impl Marked {
    // The score; 0 where none is told.
    fn score(self) -> usize
        ensures { result ≡ told_score self }
    {
        match self {
            Marked::Scored(score) => score,
            _ => 0,
        }
    }
}

// Writes the first n choices as marks.
fn put_choices(choices: [u8; MOST], n: usize, marks: &mut [u8], at: usize)
    requires { (n ≤ most)
        × (at + n ≤ length marks.old) }
    ensures { marks.new ≡ put marks.old at (take n choices) }
{
    marks[at..at + n].copy_from_slice(&choices[..n]);
}

// Writes `?` for n entries.
fn put_undecided(n: usize, marks: &mut [u8], at: usize)
    requires { at + n ≤ length marks.old }
    ensures { marks.new ≡ put marks.old at (replicate n QUESTION) }
{
    marks[at..at + n].fill(b'?');
}

// Marks the next `count` entries, which are a cluster, from entry `at` on. `table` is room for the search: what is left there is not told.
fn mark_cluster(
    lists: Lists,
    heads: Heads,
    count: usize,
    table: &mut [Row; MOST],
    marks: &mut [u8],
    at: usize,
) -> Marked
    requires { Markable (bases_of lists.reference.now) lists.first.now lists.second.now heads
        × (1 ≤ count)
        × (count ≤ length (items_from lists.first.now lists.second.now heads))
        × (at + count ≤ length marks.old) }
    ensures { (result ≡ marked_of (bases_of lists.entry.reference.now)
        (take count (variants_from (bases_of lists.entry.reference.now) lists.entry.first.now lists.entry.second.now heads)))
        × (marks.new
        ≡ put marks.old
        at (marks_of (bases_of lists.entry.reference.now)
        (take count (variants_from (bases_of lists.entry.reference.now) lists.entry.first.now lists.entry.second.now heads)))) }
{
    if MOST < count {
        put_undecided(count, marks, at);
        return Marked::Undecided;
    }
    put_rows(lists.first, lists.second, heads, count, table);
    let best = best_choices(lists.reference, lists.first, lists.second, table, count);
    put_choices(best.choices, count, marks, at);
    Marked::Scored(best.score)
}

// Marks every entry from the cursors on, and sums the score over the decided clusters. `table` is room for the search, as above.
fn mark_from(lists: Lists, from: Heads, table: &mut [Row; MOST], marks: &mut [u8]) -> usize
    requires { Markable (bases_of lists.reference.now) lists.first.now lists.second.now from
        × (length (items_from lists.first.now lists.second.now from) ≤ length marks.old) }
    ensures { (result ≡ total_score (bases_of lists.entry.reference.now)
        (clusters_from (bases_of lists.entry.reference.now) lists.entry.first.now lists.entry.second.now from))
        × (marks.new
        ≡ put marks.old 0
        (all_marks (bases_of lists.entry.reference.now)
        (clusters_from (bases_of lists.entry.reference.now) lists.entry.first.now lists.entry.second.now from))) }
{
    let mut heads = from;
    let mut at: usize = 0;
    let mut total: usize = 0;
    // By cursors and not by `Clusters`, which is no plainer: the rows of a cluster are read from the cursors in front of it.
    while !is_done(lists.first, lists.second, heads) {
        let found = next_cluster(lists.reference, lists.first, lists.second, heads);
        let marked = mark_cluster(lists, heads, found.count, table, marks, at);
        let score = marked.score();
        total += score;
        at += found.count;
        heads = found.heads;
    }
    total
}

// Marks every entry of two accepted lists, and sums the score over the decided clusters.
pub fn mark_every(lists: Lists, marks: &mut [u8]) -> usize
    requires { (length (bases_of lists.reference.now) ≤ longest_reference)
        × (length (merged_items lists.first.now lists.second.now) ≤ length marks.old) }
    ensures { (result ≡ total_score (bases_of lists.entry.reference.now)
        (clusters_of (bases_of lists.entry.reference.now) lists.entry.first.now lists.entry.second.now))
        × (marks.new
        ≡ put marks.old 0
        (all_marks (bases_of lists.entry.reference.now)
        (clusters_of (bases_of lists.entry.reference.now) lists.entry.first.now lists.entry.second.now))) }
{
    let heads = start_heads(lists.first, lists.second);
    let mut table = [Row::default(); MOST];
    mark_from(lists, heads, &mut table, marks)
}

// Marks the entries of one cluster of two accepted lists. Where there is no such cluster it says so, and nothing is written.
pub fn mark_one(lists: Lists, cluster: usize, marks: &mut [u8]) -> Marked
    requires { (length (bases_of lists.reference.now) ≤ longest_reference)
        × (length (merged_items lists.first.now lists.second.now) ≤ length marks.old) }
    ensures { (result ≡ asked_for (bases_of lists.entry.reference.now)
        (clusters_of (bases_of lists.entry.reference.now) lists.entry.first.now lists.entry.second.now) cluster)
        × (marks.new
        ≡ marks_after (bases_of lists.entry.reference.now)
        (clusters_of (bases_of lists.entry.reference.now) lists.entry.first.now lists.entry.second.now) cluster
        marks.old) }
{
    let skipped = skip_clusters(lists, cluster);
    let heads = skipped.heads;
    if is_done(lists.first, lists.second, heads) {
        return Marked::NoCluster;
    }
    let found = next_cluster(lists.reference, lists.first, lists.second, heads);
    let mut table = [Row::default(); MOST];
    mark_cluster(
        lists,
        heads,
        found.count,
        &mut table,
        marks,
        skipped.entries,
    )
}
