// A record's line, and the first row that refuses it (rows 4 to 9, 11 to 15 and 20 to 23). The contracts cite specs/.
#![tactic(auto)]

pub mod alt;
pub mod line;
pub mod record;
pub mod row;
