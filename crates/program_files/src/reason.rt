// Why a call failed, in words.
ghost use Rattle.std.specs.Prelude.{◌≤◌};

use std::fmt::Write;
use std::{fmt, io};

const ROOM: usize = 256;

// Text as it is written, up to the room that there is: a program allocates nothing for a message.
#[derive(Drop)]
pub struct Reason {
    bytes: [u8; ROOM],
    held: usize,
    ghost within: { held ≤ 256 },
}

impl Write for Reason {
    fn write_str(&mut self, text: &str) -> fmt::Result {
        let n = text.len().min(ROOM - self.held);
        let end = self.held + n;
        self.bytes[self.held..end].copy_from_slice(&text.as_bytes()[..n]);
        self.held = end;
        if n < text.len() {
            Err(fmt::Error)
        } else {
            Ok(())
        }
    }
}

impl Reason {
    pub fn new(why: &io::Error) -> Reason {
        let mut reason = Reason {
            bytes: [0; ROOM],
            held: 0,
        };
        let _ = write!(reason, "{why}");
        reason
    }

    // Without the number that std puts behind the system's words.
    pub fn text(&self) -> &str {
        let text = std::str::from_utf8(&self.bytes[..self.held]).unwrap_or("");
        text.split_once(" (os error ")
            .map_or(text, |(words, _)| words)
    }
}
