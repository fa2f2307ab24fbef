// Copies the whole records of a damaged log to a new file, and prints the list of them and of what was lost.
#![tactic(auto)]

mod pass;
mod printing;
mod reporting;

ghost use Rattle.std.specs.Prelude.{◌≡◌, ◌≤◌, true, length};
ghost use Rattle.directory.specs.Directory.{directory_kept};

use directory::Directory;
use log_input::ROOM;
use pass::salvage_file;
use program_files::{
    NAME_ROOM, PATH_ROOM, TEXT_ROOM, Teller, Told, argument, argument_count, new_name, open_read,
    open_told, read_directory, same_file, start_new,
};
use reporting::report;
use std::fs::File;
use std::rt::{Env, Files};

// Whether a path leads to the file that is open already.
fn leads_to<R: Files<File = File> + AllocGlobal>(rt: &R, path: &[u8], file: &File) -> bool {
    match open_read(rt, path) {
        Ok(other) => same_file(rt, file, &other),
        Err(_) => false,
    }
}

// The log is only read: an output that is the log itself would take its place.
fn salvage_opened<R: Files<File = File> + AllocGlobal + Print, P: Print>(
    rt: &R,
    teller: &Teller<P>,
    directory: Directory,
    file: &mut File,
    log: &[u8],
    path: &[u8],
    window: &mut [u8; ROOM],
) -> Result<(), Told>
    requires { (directory_kept directory ≡ true) × (length path.now ≤ 4096) }
{
    if leads_to(rt, path, file) {
        let text = ": this is the log, or can't be told from it; nothing was written";
        return Err(teller.tell(path, text));
    }
    let mut space = [0u8; NAME_ROOM];
    let name = new_name(path, &mut space);
    let mut new = start_new(rt, teller, name)?;
    let salvaged = salvage_file(file, &mut new, directory, window);
    report(rt, teller, salvaged, new, log, name, path)
}

// The three paths. The program's own name counts as an argument.
fn with_arguments<R: Files<File = File> + Env + AllocGlobal + Print, P: Print>(
    rt: &R,
    teller: &Teller<P>,
    text: &mut [u8; TEXT_ROOM],
    window: &mut [u8; ROOM],
) -> Result<(), Told> {
    if argument_count(rt) != 4 {
        return Err(teller.say("usage: salvage DIRECTORY LOG OUT"));
    }
    let mut listed = [0u8; PATH_ROOM];
    let mut log = [0u8; PATH_ROOM];
    let mut path = [0u8; PATH_ROOM];
    let (Some(listed), Some(log), Some(path)) = (
        argument(rt, 1, &mut listed),
        argument(rt, 2, &mut log),
        argument(rt, 3, &mut path),
    ) else {
        return Err(teller.say("a path is empty, or too long"));
    };
    let directory = read_directory(rt, teller, listed, text)?;
    let mut file = open_told(rt, teller, log)?;
    salvage_opened(rt, teller, directory, &mut file, log, path, window)
}

fn main(rt: HostRuntime) {
    let mut text = [0u8; TEXT_ROOM];
    let mut window = [0u8; ROOM];
    let err = rt.stderr();
    let teller = Teller::new(&err, "salvage");
    let _ = with_arguments(&rt, &teller, &mut text, &mut window);
}
