// The calls of reader, replay and salvage, in the form that the script asks for.
use super::tables::Tables;
use answer::{Answer, Refusal};
use record::{LogReader, Stepped};
use replay::Ran;
use salvaging::Salvaged;

impl Tables {
    pub fn next(&self, reader: LogReader, log: &[u8]) -> Result<Stepped, Refusal> {
        if self.lent {
            lent::next(reader, self.shown(), log)
        } else {
            reader.next(self.directory(), log)
        }
    }

    pub fn replay(
        &self,
        log: &[u8],
        at: usize,
        expected: u64,
        image: &mut [u8],
    ) -> Result<usize, Refusal> {
        if self.lent {
            lent::replay(self.shown(), log, at, expected, image)
        } else {
            replay::replay(self.directory(), log, at, expected, image)
        }
    }

    pub fn run(&self, log: &[u8], at: usize, expected: u64, image: &mut [u8]) -> Ran {
        if self.lent {
            lent::run(self.shown(), log, at, expected, image)
        } else {
            replay::run(self.directory(), log, at, expected, image)
        }
    }

    pub fn salvage(
        &self,
        log: &[u8],
        out: &mut [u8],
        list: &mut [u64],
    ) -> Result<Salvaged, Answer> {
        if self.lent {
            lent::salvage(self.shown(), log, out, list)
        } else {
            salvaging::salvage(self.directory(), log, out, list)
        }
    }
}
