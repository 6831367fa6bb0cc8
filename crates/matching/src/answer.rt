// The answer of a search, and whether another can be better. The search tries choices in dictionary order: of two answers that score alike
// the one found first comes first, so that only a higher score is better.
ghost use Rattle.std.specs.Prelude.{◌≡◌};
ghost use Rattle.matching.specs.Answer.{can_beat?};

use donors::table::MOST;

// The best choices that a search found, and their score.
#[derive(Clone, Copy)]
pub struct Best {
    pub score: usize,
    pub choices: [u8; MOST],
}

// Is an answer of that score better than the best so far? It is where nothing was found yet.
pub fn can_beat(score: usize, best: Option<Best>) -> bool
    ensures { result ≡ can_beat? score best }
{
    match best {
        Some(best) => best.score < score,
        None => true,
    }
}
