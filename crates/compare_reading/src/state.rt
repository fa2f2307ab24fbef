// What these commands keep: the tables, a reader, the bytes of a log and of an image, and where the last call that reads was refused.
use compare_lent::Tables;
use compare_lines::Buffer;
use record::LogReader;

#[derive(Clone, Copy)]
pub struct Reading {
    pub tables: Tables,
    pub reader: LogReader,
    pub log: Buffer<80000>,
    pub image: Buffer<300000>,
    pub place: Option<usize>,
}

impl Reading {
    pub fn new() -> Reading {
        Reading {
            tables: Tables::new(),
            reader: LogReader::new(0, false),
            log: Buffer::new(),
            image: Buffer::new(),
            place: None,
        }
    }
}
