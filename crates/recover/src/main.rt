// Replays the records of a log onto the image of a directory's tables.
#![tactic(auto)]

mod files;

ghost use Rattle.std.specs.Prelude.{◌≤◌, length};

use answer::Answer;
use directory::Directory;
use files::{Image, read_image, replace_image};
use log_input::{Outcome, ROOM, Stop, replay_file};
use program_files::{
    PATH_ROOM, Report, TEXT_ROOM, Teller, Told, argument, argument_count, first_id, open_told,
    read_directory,
};
use std::rt::{Env, Files};

// The image is replaced before anything is printed, so that whoever reads the line finds the image.
fn finish<R: Files + Print, P: Print>(
    rt: &R,
    teller: &Teller<P>,
    stop: Stop,
    path: &[u8],
    was: Image,
    image: &[u8],
) -> Result<(), Told>
    requires { length path.now ≤ 4096 }
{
    if was == Image::New || 0 < stop.count {
        replace_image(rt, teller, path, image)?;
    }
    let answer = stop.answer;
    let number = answer.number();
    let position = stop.position;
    let count = stop.count;
    let _ = println!(rt; "{number} {position} {count}");
    let fault_at = stop.fault_at;
    let report = Report {
        answer,
        position,
        fault_at,
    };
    teller.print(format_args!("{report}; the records before it were replayed"));
    if answer == Answer::WrongId {
        let found = stop.found;
        let expected = stop.expected;
        teller.say(format_args!("the record's id is {found}; expected {expected}"));
    }
    Ok(())
}

fn replay_onto<R: Files + Print, P: Print>(
    rt: &R,
    teller: &Teller<P>,
    directory: Directory,
    log: &[u8],
    path: &[u8],
    first: u64,
    window: &mut [u8; ROOM],
    image: &mut [u8],
) -> Result<(), Told>
    requires { length path.now ≤ 4096 }
{
    let was = read_image(rt, teller, path, image)?;
    let mut file = open_told(rt, teller, log)?;
    match replay_file(&mut file, directory, first, window, image) {
        Outcome::Unreadable(why) => Err(teller.fail(log, &why)),
        Outcome::TooLong(position) => {
            let limit = "has more than 2097152 bytes; nothing was written";
            Err(teller.tell(log, format_args!(": the record at {position} {limit}")))
        }
        Outcome::At(stop) => finish(rt, teller, stop, path, was, image),
    }
}

fn recover<R: Files + Print, P: Print>(
    rt: &R,
    teller: &Teller<P>,
    listed: &[u8],
    log: &[u8],
    path: &[u8],
    first: u64,
    text: &mut [u8; TEXT_ROOM],
    window: &mut [u8; ROOM],
    image: &mut [u8; ROOM],
) -> Result<(), Told>
    requires { length path.now ≤ 4096 }
{
    let directory = read_directory(rt, teller, listed, text)?;
    let length = directory.image_length();
    if ROOM < length {
        let limit = format_args!(": {length} bytes of image; there is room for {ROOM}");
        return Err(teller.tell(listed, limit));
    }
    replay_onto(
        rt,
        teller,
        directory,
        log,
        path,
        first,
        window,
        &mut image[..length],
    )
}

// The three paths, and the id. The program's own name counts as an argument.
fn with_arguments<R: Files + Env + Print, P: Print>(
    rt: &R,
    teller: &Teller<P>,
    text: &mut [u8; TEXT_ROOM],
    window: &mut [u8; ROOM],
    image: &mut [u8; ROOM],
) -> Result<(), Told> {
    if argument_count(rt) != 5 {
        return Err(teller.say("usage: recover DIRECTORY LOG IMAGE FIRST-ID"));
    }
    let first = first_id(rt, teller, 4)?;
    let mut listed = [0u8; PATH_ROOM];
    let mut log = [0u8; PATH_ROOM];
    let mut path = [0u8; PATH_ROOM];
    let (Some(listed), Some(log), Some(path)) = (
        argument(rt, 1, &mut listed),
        argument(rt, 2, &mut log),
        argument(rt, 3, &mut path),
    ) else {
        return Err(teller.say("a path is empty, or too long"));
    };
    recover(rt, teller, listed, log, path, first, text, window, image)
}

fn main(rt: HostRuntime) {
    let mut text = [0u8; TEXT_ROOM];
    let mut window = [0u8; ROOM];
    let mut image = [0u8; ROOM];
    let err = rt.stderr();
    let teller = Teller::new(&err, "recover");
    let _ = with_arguments(&rt, &teller, &mut text, &mut window, &mut image);
}
