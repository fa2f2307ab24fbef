// Hex digits to bytes and back.
ghost use Rattle.std.specs.Prelude.{◌+◌, ◌*◌, ◌≤◌, ◌<◌, ◌≡◌, length, IfSome};

pub fn value_of(character: u8) -> Option<u8>
    ensures { IfSome result (λ value. value < 16) }
{
    match character {
        b'0'..=b'9' => Some(character - b'0'),
        b'a'..=b'f' => Some(character - b'a' + 10),
        _ => None,
    }
}

fn digit_of(value: u8) -> u8
    requires { value < 16 }
{
    if value < 10 {
        b'0' + value
    } else {
        b'a' - 10 + value
    }
}

// Puts the digits of an answer, and a line's end, to the front of the output. Answers how many characters they are.
pub fn encode(answer: &[u8], output: &mut [u8]) -> usize
    requires { 2 * length answer.now + 1 ≤ length output.old }
    ensures { result ≡ 2 * length answer.now + 1 }
{
    for (i, byte) in answer.iter().enumerate() {
        output[2 * i] = digit_of(*byte / 16);
        output[2 * i + 1] = digit_of(*byte % 16);
    }
    output[2 * answer.len()] = b'\n';
    2 * answer.len() + 1
}
