// What is told of a line.

// A row that holds on a line: its number, and the place at which what is at fault begins, in bytes from the start of the line (0 in all
// rows but 20 to 23).
// Rows keep their numbers: the C interface (card_refusal), docs/refusals.tsv and the theorems judge_given and refused_iff speak of them.
#[derive(Clone, Copy)]
pub struct LineFault {
    pub number: u32,
    pub at: usize,
}
