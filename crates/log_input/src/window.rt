// A log of any length, replayed through a window of fixed length.
//
// A record looks at nothing behind itself: its faults are found in byte order, and where the bytes end before one is found
// the answer is 1 or 2. So a run over the first bytes of a log gives what a run over all of it gives, or stops with 1 or 2
// at a record that more bytes can decide.
ghost use Rattle.std.specs.Prelude.{◌≤◌, length};
ghost use Rattle.log_input.specs.Bounds.{FilledWithin};
ghost use Rattle.std.specs.ControlFlow.{ForContinue};

use answer::Answer;
use directory::Directory;
use replay::Ran;
use std::io;
use std::io::Read;
use std::ops::ControlFlow;

pub const ROOM: usize = 2097152;

// Nothing says that a file ends, so a loop over it takes so many turns as no run uses up.
const TURNS: u64 = u64::MAX;

// Where a run over a file stopped and where the action at fault begins, both from the file's front, how many records it
// replayed, the id expected next, and the one that stands there if a record begins.
#[derive(Clone, Copy)]
pub struct Stop {
    pub answer: Answer,
    pub position: u64,
    pub fault_at: u64,
    pub count: u64,
    pub expected: u64,
    pub found: u64,
}

#[derive(Clone, Copy)]
pub enum Outcome {
    At(Stop),
    TooLong(u64),
    Unreadable(io::Error),
}

// Why a read failed, and how many bytes of the buffer are held all the same.
#[derive(Clone, Copy)]
pub struct Unfilled {
    pub held: usize,
    pub why: io::Error,
}

// Reads behind the bytes held, until the buffer is full or the file ends. Answers how many are held then.
pub fn fill<R: Read>(file: &mut R, buffer: &mut [u8], from: usize) -> Result<usize, Unfilled>
    requires { from ≤ length buffer.old }
    ensures { FilledWithin result (length buffer.old) }
{
    let mut held = from;
    while held < buffer.len() {
        match file.read(&mut buffer[held..]) {
            Ok(0) => break,
            Ok(more) => held += more,
            Err(why) => return Err(Unfilled { held, why }),
        }
    }
    Ok(held)
}

// Moves the bytes behind a place to the front. Answers how many they are.
pub fn move_front(window: &mut [u8; ROOM], from: usize, held: usize) -> usize
    requires { held ≤ 2097152 }
    ensures { result ≤ 2097152 }
{
    let rest = held.saturating_sub(from);
    window.copy_within(held - rest..held, 0);
    rest
}

// The id behind the tag at a place.
fn id_at(bytes: &[u8], at: usize) -> u64 {
    match bytes.get(at..) {
        Some(action) if action.len() >= 9 => words::u64_at(action, 1),
        _ => 0,
    }
}

// A full window in which nothing can be replayed: the record passes it if the file goes on.
fn full<R: Read>(file: &mut R, stop: Stop) -> Outcome {
    let mut one = [0];
    match fill(file, &mut one, 0) {
        Ok(0) => Outcome::At(stop),
        Ok(_) => Outcome::TooLong(stop.position),
        Err(unfilled) => Outcome::Unreadable(unfilled.why),
    }
}

// What a run over the bytes held adds. The sums don't wrap: no file has 2^64 bytes, and a run that stops with 1 or 2 has not
// used up the ids.
fn further(stop: Stop, ran: Ran, bytes: &[u8]) -> Stop {
    Stop {
        answer: ran.answer,
        position: stop.position.wrapping_add(ran.position as u64),
        fault_at: stop.position.wrapping_add(ran.fault_at as u64),
        count: stop.count.wrapping_add(ran.count),
        expected: stop.expected.wrapping_add(ran.count),
        found: id_at(bytes, ran.position),
    }
}

// Where the runs so far stopped, and how many bytes that they left stand at the window's front.
#[derive(Clone, Copy)]
struct Left {
    stop: Stop,
    rest: usize,
}

// The window filled, its records replayed, and what is left of it moved to its front; or what it came to, where the file doesn't go on.
fn one_turn<R: Read>(
    file: &mut R,
    directory: Directory,
    left: Left,
    window: &mut [u8; ROOM],
    image: &mut [u8],
) -> ControlFlow<Outcome, Left>
    requires { left.rest ≤ 2097152 }
    ensures { ForContinue result (λ left. left.rest ≤ 2097152) }
{
    let held = match fill(file, window, left.rest) {
        Ok(held) => held,
        Err(unfilled) => return ControlFlow::Break(Outcome::Unreadable(unfilled.why)),
    };
    let bytes: &[u8] = window;
    let ran = replay::run(directory, &bytes[..held], 0, left.stop.expected, image);
    let stop = further(left.stop, ran, bytes);
    if held < ROOM || !matches!(stop.answer, Answer::EndOfLog | Answer::Cut) {
        return ControlFlow::Break(Outcome::At(stop));
    }
    if ran.position == 0 {
        return ControlFlow::Break(full(file, stop));
    }
    let rest = move_front(window, ran.position, held);
    ControlFlow::Continue(Left { stop, rest })
}

pub fn replay_file<R: Read>(
    file: &mut R,
    directory: Directory,
    first: u64,
    window: &mut [u8; ROOM],
    image: &mut [u8],
) -> Outcome {
    let mut left = Left {
        stop: Stop {
            answer: Answer::EndOfLog,
            position: 0,
            fault_at: 0,
            count: 0,
            expected: first,
            found: 0,
        },
        rest: 0,
    };
    for _ in 0..TURNS {
        match one_turn(file, directory, left, window, image) {
            ControlFlow::Continue(more) => left = more,
            ControlFlow::Break(outcome) => return outcome,
        }
    }
    Outcome::Unreadable(io::Error::other("the file has no end"))
}
