// Which entry stands where in merged order: one record an entry. The contracts cite specs/.
#![tactic(auto)]

pub mod listed;
