// The normal form of an entry: what is cut off its alleles, and where they then stand. The contracts cite specs/.
#![tactic(auto)]

pub mod cut;
pub mod entry;
