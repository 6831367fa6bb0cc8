// The card's calls for C and Rust: no reference is returned, and each answer is a number or a struct of numbers.
#![tactic(auto)]

pub mod all;
pub mod allele;
pub mod count;
pub mod entries;
pub mod mark;
pub mod normal_text;
pub mod plan;
pub mod version;
