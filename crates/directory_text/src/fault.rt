// What can be wrong in a line.

// A number is given by its place in its line, from 1 on.
#[derive(Clone, Copy, PartialEq, Eq)]
pub enum Fault {
    UnknownKind,
    Missing(u8),
    NotDecimal(u8),
    TooLarge(u8),
    MoreWords,
    SeventeenthTable,
    RuleBroken,
    NameTaken,
}
