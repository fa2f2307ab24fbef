// What these commands keep: a list, with its memories of words and of bytes.
use change::LogChange;

#[derive(Clone, Copy)]
pub struct List {
    pub list: LogChange,
    pub words: [u64; 400],
    pub bytes: [u8; 49152],
}

impl List {
    pub fn new() -> List {
        List {
            list: LogChange::new(1),
            words: [0; 400],
            bytes: [0; 49152],
        }
    }
}
