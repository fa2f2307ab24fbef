// The list, a line each.
use program_files::{Teller, Told};
use salvaging::{Line, Lines};
use std::io;

fn print_line(out: &impl Print, line: Line) -> io::Result<()> {
    match line {
        Line::Lost { position, length } => println!(out; "lost {position} {length}"),
        Line::Kept {
            position,
            length,
            id,
        } => println!(out; "kept {position} {length} {id}"),
    }
}

pub fn print_lines<P: Print>(
    out: &impl Print,
    teller: &Teller<P>,
    lines: &Lines,
) -> Result<(), Told> {
    for line in lines.all() {
        print_line(out, *line).map_err(|why| teller.fail(b"standard output", &why))?;
    }
    Ok(())
}
