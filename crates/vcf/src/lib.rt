// A list's text: its lines, what refuses it (rows 3 to 9, 11 to 15 and 20 to 23), and its entries. The contracts cite specs/.
#![tactic(auto)]

pub mod entry;
pub mod lines;
pub mod list;
