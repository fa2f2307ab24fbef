// The names of log files.
ghost use Rattle.std.specs.Prelude.{◌≡◌};
ghost use Rattle.found.specs.Names.{digit_of, decimal_from, log_name};

#[tactic(auto, unfolding(crate::specs::Names::digit_of))]
fn digit(b: u8) -> Option<u64>
    ensures { result ≡ digit_of b }
{
    if b.is_ascii_digit() {
        Some(u64::from(b - b'0'))
    } else {
        None
    }
}

// The number that digits make. It only grows, so it stops where it leaves 32 bits.
fn decimal(digits: &[u8]) -> Option<u64>
    ensures { result ≡ decimal_from 0 digits.now }
{
    let mut n: u64 = 0;
    for b in digits {
        n = 10 * n + digit(*b)?;
        if 4294967295 < n {
            return None;
        }
    }
    Some(n)
}

// The number of a log file's name.
pub fn log_name(name: &[u8]) -> Option<u64>
    ensures { result ≡ log_name name.now }
{
    let digits = name.strip_prefix(b"log")?;
    if digits.is_empty() || (1 < digits.len() && digits[0] == b'0') {
        return None;
    }
    decimal(digits)
}
