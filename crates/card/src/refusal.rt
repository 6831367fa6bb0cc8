// What is turned away.

// The four numbers of a refusal: the row, the list (0 where it is about no list), the line (from 1; 0 where it is about none) and the place
// in the line where the allele at fault begins (from 0; 0 in all rows but 20 to 23). Four zeros where nothing is turned away: the call
// `allele_refusal`, which keeps its signature, answers so.
#[derive(Clone, Copy, Default)]
pub struct Refusal {
    pub number: u32,
    pub list: u32,
    pub line: u32,
    pub place: u32,
}
