// A list written in normal form: each record's line, in its place by the new POS. The contracts cite specs/.
#![tactic(auto)]

pub mod list;
pub mod place;
pub mod put;
pub mod write;
