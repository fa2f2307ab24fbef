// A directory in its plain text form: a line a table.
#![tactic(auto)]

mod fault;
mod line;
mod number;
mod scan;
mod text;

pub use fault::Fault;
pub use line::line_of;
pub use number::{NotNumber, number_of};
pub use text::{Broken, LineFault, Parsed, directory_of, parse};

#[cfg(test)]
mod tests {
    use super::*;

    #[test]
    fn tells_the_first_fault(rt: HostRuntime) {
        let twice = b"value 7 1 128 20\n# none\nvalue 7 1 128 20\nindex 3 0 64 1\n";
        let fault = directory_of(twice).err();
        assert!(rt;
            fault
                == Some(LineFault {
                    line: 3,
                    fault: Fault::NameTaken
                })
        );
    }

    #[test]
    fn holds_the_tables(rt: HostRuntime) {
        let Ok(directory) = directory_of(b"value 7 1 128 20\n\nindex 3 0 64\n") else {
            panic!(rt; "a fault");
        };
        assert_eq!(rt; directory.count, 2);
        assert_eq!(rt; directory.tables[0].number, 7);
        assert_eq!(rt; directory.tables[1].number, 3);
    }
}
