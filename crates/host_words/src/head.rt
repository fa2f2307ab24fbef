// What a call leaves of a state that the host lent as words.
ghost use Rattle.std.specs.Prelude.{◌≡◌};
ghost use Rattle.answer.specs.Answer.{number_of};
ghost use Rattle.host_words.specs.Head.{head_room, head_after, HeadLeft};

use answer::Answer;
use words::copy_from_slice;

// What a call answered, as a number; the words are then the state that it left, where it answered 0 or 1.
#[tactic(auto, unfolding(crate::specs::Head::head_stored))]
pub fn keep<const N: usize>(words: &mut [u64], answer: Answer, state: &[u64; N]) -> u64
    ensures { HeadLeft N answer state.now words.old result words.new }
{
    let number = u64::from(answer.number());
    if words.len() == N && number < 2 {
        copy_from_slice(words, state);
    }
    number
}

// A new state where there is room for it, and 0; else 13, and the words as they were.
#[tactic(auto, unfolding(crate::specs::Head::head_room))]
pub fn make<const N: usize>(words: &mut [u64], state: &[u64; N]) -> u64
    ensures answer { result ≡ number_of (head_room N words.old) }
    ensures words { words.new ≡ head_after N (number_of (head_room N words.old)) words.old state.now }
{
    let answer = if words.len() == N {
        Answer::Done
    } else {
        Answer::BadState
    };
    keep(words, answer, state)
}
