// The whole text, line by line, up to the first fault.
ghost use Rattle.std.specs.Prelude.{◌≡◌};
ghost use Rattle.directory_text.specs.Text.{with_table, with_line, parsed, parse};

use super::fault::Fault;
use super::line::line_of;
use super::scan::{behind_one, split_before};
use directory::{Directory, TableDescription};

// The tables of a text, and the number of its last line: how many it has.
#[derive(Clone, Copy)]
pub struct Parsed {
    pub directory: Directory,
    pub line: u64,
}

// What is wrong in which line, from 1 on.
#[derive(Clone, Copy, PartialEq, Eq)]
pub struct LineFault {
    pub line: u64,
    pub fault: Fault,
}

// The first fault, and the tables of the lines in front of it.
#[derive(Clone, Copy)]
pub struct Broken {
    pub directory: Directory,
    pub at: LineFault,
}

#[tactic(auto, unfolding(crate::specs::Text::with_table))]
fn with_table(directory: Directory, table: TableDescription) -> Result<Directory, Fault>
    ensures { result ≡ with_table directory table }
{
    if 16 <= directory.count {
        return Err(Fault::SeventeenthTable);
    }
    if !table.kept() {
        return Err(Fault::RuleBroken);
    }
    if directory.find(table.kind, table.number).is_some() {
        return Err(Fault::NameTaken);
    }
    let mut longer = directory;
    longer.tables[directory.count] = table;
    longer.count += 1;
    Ok(longer)
}

#[tactic(auto, unfolding(crate::specs::Text::with_line, crate::specs::Text::of_line))]
fn with_line(directory: Directory, line: &[u8]) -> Result<Directory, Fault>
    ensures { result ≡ with_line directory line.now }
{
    match line_of(line)? {
        Some(table) => with_table(directory, table),
        None => Ok(directory),
    }
}

// The directory and how many lines the text has; or its first fault, behind the tables of the lines before.
pub fn parse(text: &[u8]) -> Result<Parsed, Broken>
    ensures { result ≡ parse text.now }
{
    let mut directory = Directory::new();
    let mut line = 0;
    let mut rest = text;
    while !rest.is_empty() {
        let (first, behind) = split_before(rest, b'\n');
        line += 1;
        match with_line(directory, first) {
            Ok(longer) => directory = longer,
            Err(fault) => {
                let at = LineFault { line, fault };
                return Err(Broken { directory, at });
            }
        }
        rest = behind_one(behind);
    }
    Ok(Parsed { directory, line })
}

// The directory alone, or the first fault.
#[tactic(auto, using(crate::proofs::Lines::same_text))]
pub fn directory_of(text: &[u8]) -> Result<Directory, LineFault>
    ensures { result ≡ parsed text.now }
{
    match parse(text) {
        Ok(parsed) => Ok(parsed.directory),
        Err(broken) => Err(broken.at),
    }
}
