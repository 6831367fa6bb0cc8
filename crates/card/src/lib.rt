// The card's calls. None has a `requires`: bad input is refused with the number, list, line and place of its row, and a refused call
// changes nothing. The calls take the reference, its name and the lists one by one, since the C interface in include/card.h gives them so.
#![tactic(auto)]

pub mod all;
pub mod allele;
pub mod answer;
pub mod count;
pub mod entries;
pub mod lists;
pub mod mark;
pub mod normal_text;
pub mod plan;
pub mod refusal;
