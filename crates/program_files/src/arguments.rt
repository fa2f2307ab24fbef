// The arguments that the program was given.
ghost use Rattle.std.specs.Prelude.{◌≤◌, length, IfSome};

use super::message::{Teller, Told};
use directory_text::{NotNumber, number_of};
use std::env::FillError;
use std::rt::Env;

// The longest argument that is taken.
pub const PATH_ROOM: usize = 4096;

fn is_given(env: &impl Env, i: usize) -> bool {
    !matches!(env.arg(i, &mut [0u8; 0]), Err(FillError::NotPresent))
}

// How many there are, the program's own name among them.
pub fn argument_count(env: &impl Env) -> usize {
    for i in 0..usize::MAX {
        if !is_given(env, i) {
            return i;
        }
    }
    usize::MAX
}

// An argument, which stands at the buffer's front then. There is none where it is missing, empty, or longer than the buffer.
pub fn argument<'a>(env: &impl Env, i: usize, buffer: &'a mut [u8; PATH_ROOM]) -> Option<&'a [u8]>
    ensures { IfSome result (λ bytes. length bytes.now ≤ 4096) }
{
    match env.arg(i, buffer) {
        Ok(0) | Err(_) => None,
        Ok(n) => Some(&buffer[..n]),
    }
}

// An argument that is the first id, a decimal number.
pub fn first_id<P: Print>(env: &impl Env, teller: &Teller<P>, i: usize) -> Result<u64, Told> {
    let mut buffer = [0; PATH_ROOM];
    let word = argument(env, i, &mut buffer).unwrap_or(b"");
    match number_of(word) {
        Ok(first) => Ok(first),
        Err(NotNumber::NotDecimal) => Err(teller.quote("FIRST-ID is no decimal number: ", word)),
        Err(NotNumber::TooLarge) => Err(teller.quote("FIRST-ID isn't below 2^64: ", word)),
    }
}
