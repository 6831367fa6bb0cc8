// What a call answers.
ghost use Rattle.std.specs.Prelude.{◌≡◌};
ghost use Rattle.card.specs.Answer.{answer, refused_answer};

use crate::refusal::Refusal;

// Five numbers. Where the call is refused: the number, list, line and place of the refusal, and value 0. Where it is answered: number and
// place 0, and what list, line and value mean is said at the call. Here and in AllMarked and Counted the four stand one by one, not as a
// Refusal: include/card.h gives the fields so.
#[repr(C)]
#[derive(Clone, Copy, Default)]
pub struct Answer {
    pub number: u32,
    pub list: u32,
    pub line: u32,
    pub place: u32,
    pub value: u32,
}

// The answer of a refused call: the four numbers of the refusal, and value 0.
impl From<Refusal> for Answer {
    ghost from_gives = { λ refusal answer. answer ≡ refused_answer refusal };

    fn from(refusal: Refusal) -> Answer {
        refuse(refusal.number, refusal.list, refusal.line, refusal.place)
    }
}

// The call is refused, for this reason.
pub fn refuse(number: u32, list: u32, line: u32, place: u32) -> Answer
    ensures { result ≡ answer number list line place 0 }
{
    Answer {
        number,
        list,
        line,
        place,
        value: 0,
    }
}

// The call is answered, with this value.
pub fn give(value: u32) -> Answer
    ensures { result ≡ answer 0 0 0 0 value }
{
    Answer {
        value,
        ..Answer::default()
    }
}
