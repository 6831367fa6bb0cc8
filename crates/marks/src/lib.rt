// Marks: a cluster's rows in the table, the marks of one cluster and of all, and what marks count. The contracts cite specs/.
#![tactic(auto)]

pub mod count;
pub mod mark;
pub mod row;
pub mod skip;
