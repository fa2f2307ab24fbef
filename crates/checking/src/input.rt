// Standard input, checked a read at a time: a log of any length in a window of fixed length.
use answer::Answer;
use checker::LogChecker;
use directory::Directory;
use log_input::ROOM;
use replay::Ran;
use std::io;
use std::io::Read;

// Nothing says that the input ends, so the reads are counted, up to a number that no input reaches.
const READS: u64 = 18446744073709551615;

// Reads to the end, or to the piece that settles the report.
pub fn check_input<R: Read>(
    input: &mut R,
    directory: Directory,
    first: u64,
    window: &mut [u8; ROOM],
) -> io::Result<Ran> {
    let mut checker = LogChecker::new(directory, first).checker;
    for _ in 0..READS {
        let n = input.read(window)?;
        if n == 0 {
            break;
        }
        let told = checker.piece(&window[..n]);
        checker = told.checker;
        if told.answer != Answer::Done {
            break;
        }
    }
    Ok(checker.close().ran)
}
