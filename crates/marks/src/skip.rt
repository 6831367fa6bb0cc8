// Past the first clusters of two lists.
ghost use Rattle.std.specs.Prelude.{◌≡◌};
ghost use Rattle.bases.specs.Letter.{bases_of};
ghost use Rattle.clusters.specs.Heads.{start_heads};
ghost use Rattle.marks.specs.Skip.{skip_clusters};

use clusters::cluster::next_cluster;
use clusters::heads::{Heads, is_done, start_heads};
use clusters::lists::Lists;

// Where a walk from cluster to cluster came: the cursors, and the number of entries before them.
#[derive(Clone, Copy)]
pub struct Skipped {
    pub heads: Heads,
    pub entries: usize,
}

// Behind the first k clusters of two lists; where there are fewer, behind the last.
pub fn skip_clusters(lists: Lists, k: usize) -> Skipped
    ensures { result ≡ skip_clusters (bases_of lists.entry.reference.now) lists.entry.first.now lists.entry.second.now k
        (start_heads lists.entry.first.now lists.entry.second.now) 0 }
{
    let mut heads = start_heads(lists.first, lists.second);
    let mut entries: usize = 0;
    // By cursors and not by `Clusters`, which is no plainer: what is told are the cursors behind the clusters.
    for _ in 0..k {
        if is_done(lists.first, lists.second, heads) {
            return Skipped { heads, entries };
        }
        let found = next_cluster(lists.reference, lists.first, lists.second, heads);
        heads = found.heads;
        entries += found.count;
    }
    Skipped { heads, entries }
}
