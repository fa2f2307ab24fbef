// The calls of reader, replay and salvage, of the same names.
ghost use Rattle.std.specs.Prelude.{◌≡◌, ◌≢◌, IfErr};
ghost use Rattle.record.specs.Next.{next_of};
ghost use Rattle.replay.specs.Replay.{judged, image_after, end_in};
ghost use Rattle.replay.specs.Run.{run_of};
ghost use Rattle.salvaging.specs.Salvage.{left_of, salvage_of};
ghost use Rattle.lent.specs.Lent.{gathered};

use super::slice::gather;
use answer::{Answer, Refusal};
use directory::TableDescription;
use record::{LogReader, Stepped};
use replay::Ran;
use salvaging::Salvaged;

pub fn next(reader: LogReader, tables: &[TableDescription], log: &[u8]) -> Result<Stepped, Refusal>
    ensures { result ≡ next_of (gathered tables.now) log.now reader }
{
    reader.next(gather(tables), log)
}

pub fn replay(
    tables: &[TableDescription],
    log: &[u8],
    at: usize,
    expected: u64,
    image: &mut [u8],
) -> Result<usize, Refusal>
    ensures { (result ≡ end_in (judged (gathered tables.now) log.now at expected image.old)) × (image.new ≡ image_after (gathered tables.now) image.old (judged (gathered tables.now) log.now at expected image.old)) }
{
    replay::replay(gather(tables), log, at, expected, image)
}

pub fn run(
    tables: &[TableDescription],
    log: &[u8],
    at: usize,
    expected: u64,
    image: &mut [u8],
) -> Ran
    ensures { (result ≡ (run_of (gathered tables.now) log.now at expected image.old).ran) × (image.new ≡ (run_of (gathered tables.now) log.now at expected image.old).image) }
{
    replay::run(gather(tables), log, at, expected, image)
}

pub fn salvage(
    tables: &[TableDescription],
    log: &[u8],
    out: &mut [u8],
    list: &mut [u64],
) -> Result<Salvaged, Answer>
    ensures refused { IfErr result (λ a. a ≢ Answer.Done) }
    ensures left { left_of result out.new list.new ≡ salvage_of (gathered tables.now) log.now out.old list.old }
{
    salvaging::salvage(gather(tables), log, out, list)
}
