// What the programs read: their name and files, and the reference file's LF.
// The contracts cite specs/.
#![tactic(auto)]

pub mod file;
pub mod given;
