// What becomes of the new file, and what is told.
use super::pass::Stop;
use super::printing::print_lines;
use program_files::{Teller, Told, drop_new, put_in_place};
use salvaging::Lines;
use std::rt::Files;

fn tell_stop<P: Print>(teller: &Teller<P>, stop: Stop, log: &[u8], name: &[u8]) -> Told {
    match stop {
        Stop::ManyLines(position) => {
            let place = format_args!("the 65th begins at {position}; nothing was written");
            let text = format_args!(": answer 9: the list has more than 64 lines, {place}");
            teller.tell(log, text)
        }
        Stop::TooLong(position) => {
            let limit = "has more than 2097152 bytes; nothing was written";
            teller.tell(log, format_args!(": the record at {position} {limit}"))
        }
        Stop::Unreadable(why) => teller.fail(log, &why),
        Stop::Unwritable(why) => teller.fail(name, &why),
    }
}

// The file is in its place before anything is printed, so that whoever reads the list finds the records.
pub fn report<R: Files + Print, P: Print>(
    rt: &R,
    teller: &Teller<P>,
    salvaged: Result<Lines, Stop>,
    new: R::File,
    log: &[u8],
    name: &[u8],
    path: &[u8],
) -> Result<(), Told> {
    match salvaged {
        Ok(lines) => {
            put_in_place(rt, teller, new, name, path)?;
            print_lines(rt, teller, &lines)
        }
        Err(stop) => {
            let told = tell_stop(teller, stop, log, name);
            drop_new(rt, new, name);
            Err(told)
        }
    }
}
