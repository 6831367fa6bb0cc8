// Matching: legal choices, their score, and the best string of choices, which clusters can be solved for alone.
// The contracts cite specs/, which say what is meant; proofs/ have the theorems.
#![tactic(auto)]

pub mod answer;
pub mod fits;
pub mod search;
