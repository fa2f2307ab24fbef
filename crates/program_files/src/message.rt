// What standard error is told. Nothing is told of a message that can't be written.
use super::reason::Reason;
use std::fmt::Display;
use std::io;

// Standard error has been told of a failure, for which nothing more is to be done.
#[derive(Clone, Copy)]
pub struct Told;

// Standard error, and the program in whose name it is told.
#[derive(Drop)]
pub struct Teller<'a, P> {
    err: &'a P,
    program: &'a str,
}

impl<'a, P: Print> Teller<'a, P> {
    pub fn new(err: &'a P, program: &'a str) -> Teller<'a, P> {
        Teller { err, program }
    }

    // What failed, and why.
    pub fn fail(&self, what: &[u8], why: &io::Error) -> Told {
        let reason = Reason::new(why);
        let text = reason.text();
        let _ = self.err.write_all(what);
        let _ = println!(self.err; ": {text}");
        Told
    }

    // A path is told as its bytes stand.
    pub fn tell(&self, path: &[u8], text: impl Display + Drop) -> Told {
        let program = self.program;
        let _ = print!(self.err; "{program}: ");
        let _ = self.err.write_all(path);
        let _ = println!(self.err; "{text}");
        Told
    }

    // Of no path.
    pub fn say(&self, text: impl Display + Drop) -> Told {
        self.tell(b"", text)
    }

    // A word as its bytes stand, behind what is said of it.
    pub fn quote(&self, text: &str, word: &[u8]) -> Told {
        let program = self.program;
        let _ = print!(self.err; "{program}: {text}");
        let _ = self.err.write_all(word);
        let _ = self.err.write_all(b"\n");
        Told
    }

    // A line without the program's name.
    pub fn print(&self, text: impl Display + Drop) {
        let _ = println!(self.err; "{text}");
    }
}
