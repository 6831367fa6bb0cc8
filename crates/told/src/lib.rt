// What the programs tell of their files: why they are refused, and the marks of a run's lists.
// The contracts cite specs/.
#![tactic(auto)]

pub mod marked;
pub mod refused;
