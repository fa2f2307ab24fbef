// Answers the run protocol on standard input and output, so that runs of the port can be compared with runs of the Rust.
#![tactic(auto)]

use compare_console::{Input, Output, TURNS};
use compare_lines::{Fault, Line};
use compare_session::Session;
use std::io::Read;

// Command by command, up to the input's end.
fn answer_all<R: Read>(
    reader: &mut R,
    out: &impl Print,
    input: &mut Input,
    session: &mut Session,
    line: &mut Line,
    output: &mut Output,
) -> Result<(), Fault> {
    for _ in 0..TURNS {
        let Some(command) = input.next_command(reader)? else {
            break;
        };
        session.serve(command, line)?;
        if output.put_line(out, line.bytes()).is_err() {
            return Err(Fault::NoOutput);
        }
    }
    Ok(())
}

fn tell(err: &impl Print, line: u64, fault: Fault) {
    let _ = println!(err; "compare: line {line}: {fault}");
}

// The longest command is a LOG. The longest answer, to SALVAGE, has 81,615 bytes, and its line fits into the output behind one that waits.
fn main(rt: HostRuntime) {
    let mut input = Input::new();
    let mut session = Session::new();
    let mut line = Line::new();
    let mut output = Output::new();
    let ended = answer_all(
        &mut rt.stdin(),
        &rt,
        &mut input,
        &mut session,
        &mut line,
        &mut output,
    );
    if let Err(fault) = ended {
        tell(&rt.stderr(), input.line, fault);
    }
    if output.flush(&rt).is_err() {
        tell(&rt.stderr(), input.line, Fault::NoOutput);
    }
}
