// Whether the donors of the two lists are equal on a copy, for a table of entries and their choices: both are walked along side by side,
// and neither is built. The contracts cite specs/.
#![tactic(auto)]

pub mod agree;
pub mod table;
pub mod walk;
