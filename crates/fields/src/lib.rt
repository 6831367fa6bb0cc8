// What stands in a line of a list: bytes, fields, POS, alleles, genotype, header lines (the tests of rows 5, 6, 8, 9, 11, 20 and 21).
// The contracts cite specs/.
#![tactic(auto)]

pub mod allele;
pub mod bytes;
pub mod field;
pub mod genotype;
pub mod header;
pub mod pos;
