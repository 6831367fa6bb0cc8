// Letters, equal bytes and bases, the reference, places in it, and bytes written into lent room: what every crate above reads bases and
// writes bytes by. The contracts cite specs/.
#![tactic(auto)]

pub mod bytes;
pub mod letter;
pub mod place;
pub mod put;
pub mod reference;
pub mod same;
