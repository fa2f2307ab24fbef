// How standard error is told what is wrong in a line of the directory's text.
use super::message::{Teller, Told};
use directory_text::{Fault, LineFault};
use std::fmt;

// A number by its place in the line.
#[derive(Clone, Copy)]
struct Numbered(u8);

impl fmt::Display for Numbered {
    fn fmt<W: fmt::Write>(&self, f: &mut fmt::Formatter<W>) -> fmt::Result {
        let name = match self.0 {
            1 => "the table's own",
            2 => "the column",
            3 => "the count",
            _ => "the value's length",
        };
        write!(f, "number {}, {name},", self.0)
    }
}

#[derive(Clone, Copy)]
struct Words(Fault);

impl fmt::Display for Words {
    fn fmt<W: fmt::Write>(&self, f: &mut fmt::Formatter<W>) -> fmt::Result {
        match self.0 {
            Fault::UnknownKind => f.write_str("the first word isn't index, value or refcount"),
            Fault::Missing(which) => write!(f, "{} is missing", Numbered(which)),
            Fault::NotDecimal(which) => write!(f, "{} is no decimal number", Numbered(which)),
            Fault::TooLarge(2) => write!(f, "{} is above 255", Numbered(2)),
            Fault::TooLarge(which) => write!(f, "{} is above 65535", Numbered(which)),
            Fault::MoreWords => f.write_str("a word stands behind the last number"),
            Fault::SeventeenthTable => f.write_str("a 17th table; a directory has at most 16"),
            Fault::RuleBroken => f.write_str(
                "a rule is broken: column 0 to 7, count 1 to 4096, a value's length 1 to 512",
            ),
            Fault::NameTaken => f.write_str("a line before has a table of this kind and number"),
        }
    }
}

pub fn tell_fault<P: Print>(teller: &Teller<P>, path: &[u8], at: LineFault) -> Told {
    let line = at.line;
    let words = Words(at.fault);
    teller.tell(path, format_args!(": line {line}: {words}"))
}
