// Where the last call that reads was refused, if it was.
use answer::Answer;

pub fn refused_at(answer: Answer, position: usize) -> Option<usize> {
    (answer != Answer::Done).then_some(position)
}
