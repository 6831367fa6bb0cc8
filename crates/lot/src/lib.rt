// Recall for a reagent lot: the six counts of each control run, their totals, and recall and precision as exact fractions.
// The contracts cite specs/.
#![tactic(auto)]

pub mod answer;
pub mod lot;
pub mod run;
pub mod share;
pub mod sum;
