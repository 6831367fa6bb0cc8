// What the programs print with: numbers, fields, and the line of a refusal.
// The contracts cite specs/.
#![tactic(auto)]

pub mod field;
pub mod refused;
