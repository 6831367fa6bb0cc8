// Clusters: the entries of two lists in merged order, the gap rule, the clusters that it cuts, in one walk over both texts, and the plan.
// The contracts cite specs/.
#![tactic(auto)]

pub mod cluster;
pub mod gap;
pub mod heads;
pub mod item;
pub mod lists;
pub mod merged;
pub mod plan;
