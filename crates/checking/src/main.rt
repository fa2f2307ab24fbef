// Checks a log as it comes over standard input: prints what a run over it would report, and applies nothing.
#![tactic(auto)]

mod input;

use input::check_input;
use log_input::ROOM;
use program_files::{
    PATH_ROOM, Report, TEXT_ROOM, Teller, Told, argument, argument_count, first_id, read_directory,
};
use replay::Ran;
use std::io::Input;
use std::rt::{Env, Files};

fn report<P: Print>(out: &impl Print, teller: &Teller<P>, ran: Ran) {
    let number = ran.answer.number();
    let position = ran.position;
    let count = ran.count;
    if let Err(why) = println!(out; "{number} {position} {count}") {
        teller.fail(b"standard output", &why);
    }
    let report = Report {
        answer: ran.answer,
        position: position as u64,
        fault_at: ran.fault_at as u64,
    };
    teller.say(format_args!("{report}; the records before it are whole"));
}

// The path, and the id. The program's own name counts as an argument.
fn with_arguments<R: Files + Env + Input + Print, P: Print>(
    rt: &R,
    teller: &Teller<P>,
    text: &mut [u8; TEXT_ROOM],
    window: &mut [u8; ROOM],
) -> Result<(), Told> {
    if argument_count(rt) != 3 {
        return Err(teller.say("usage: checking DIRECTORY FIRST-ID, the log over standard input"));
    }
    let first = first_id(rt, teller, 2)?;
    let mut listed = [0u8; PATH_ROOM];
    let Some(listed) = argument(rt, 1, &mut listed) else {
        return Err(teller.say("the path is empty, or too long"));
    };
    let directory = read_directory(rt, teller, listed, text)?;
    let ran = check_input(&mut rt.reader(), directory, first, window).map_err(|why| teller.fail(
        b"standard input",
        &why,
    ))?;
    report(rt, teller, ran);
    Ok(())
}

fn main(rt: HostRuntime) {
    let mut text = [0u8; TEXT_ROOM];
    let mut window = [0u8; ROOM];
    let err = rt.stderr();
    let teller = Teller::new(&err, "checking");
    let _ = with_arguments(&rt, &teller, &mut text, &mut window);
}
