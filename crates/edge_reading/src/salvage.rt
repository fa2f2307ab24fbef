// The whole records of a damaged log.
ghost use Rattle.std.specs.Prelude.{◌≡◌, true, length};
ghost use Rattle.answer.specs.Answer.{number_of};
ghost use Rattle.directory.specs.Directory.{directory_kept};
ghost use Rattle.salvaging.specs.Salvage.{lines_of, salvage_by, salvage_of};
ghost use Rattle.host_words.specs.Tables.{directory_from};
ghost use Rattle.edge_reading.specs.Reading.{SalvagedLeft};

use answer::Answer;
use host_words::directory_of;
use salvaging::Salvaged;

// What a salvage leaves beside the two memories, stored where the host lent room for it.
fn keep_salvaged(done: Result<Salvaged, Answer>, lines: &mut u64, written: &mut u64) -> u64
    ensures { SalvagedLeft done result lines.new written.new }
{
    match done {
        Ok(s) => {
            *lines = s.lines as u64;
            *written = s.written as u64;
            0
        }
        Err(answer) => {
            *lines = 0;
            *written = 0;
            u64::from(answer.number())
        }
    }
}

#[unsafe(no_mangle)]
pub extern "C" fn hongsathep_salvage(
    tables: &[u64],
    log: &[u8],
    out: &mut [u8],
    list: &mut [u64],
    lines: &mut u64,
    written: &mut u64,
) -> u64
    ensures answer { result ≡ number_of (salvage_of (directory_from tables.now) log.now out.old list.old).answer }
    ensures lines { lines.new ≡ (salvage_of (directory_from tables.now) log.now out.old list.old).lines }
    ensures written { written.new ≡ (salvage_of (directory_from tables.now) log.now out.old list.old).written }
    ensures out { out.new ≡ (salvage_of (directory_from tables.now) log.now out.old list.old).out }
    ensures list { list.new ≡ (salvage_of (directory_from tables.now) log.now out.old list.old).list }
{
    let done = salvaging::salvage(directory_of(tables), log, out, list);
    keep_salvaged(done, lines, written)
}

#[unsafe(no_mangle)]
pub extern "C" fn hongsathep_salvage_kept(
    tables: &[u64],
    log: &[u8],
    out: &mut [u8],
    list: &mut [u64],
    lines: &mut u64,
    written: &mut u64,
) -> u64
    requires { (directory_kept (directory_from tables.now) ≡ true) × (length list.old ≡ 256) }
    ensures answer { result ≡ number_of (salvage_by log.now (lines_of (directory_from tables.now) log.now) out.old list.old).answer }
    ensures lines { lines.new ≡ (salvage_by log.now (lines_of (directory_from tables.now) log.now) out.old list.old).lines }
    ensures written { written.new ≡ (salvage_by log.now (lines_of (directory_from tables.now) log.now) out.old list.old).written }
    ensures out { out.new ≡ (salvage_by log.now (lines_of (directory_from tables.now) log.now) out.old list.old).out }
    ensures list { list.new ≡ (salvage_by log.now (lines_of (directory_from tables.now) log.now) out.old list.old).list }
{
    let done = salvaging::salvage_kept(directory_of(tables), log, out, list);
    keep_salvaged(done, lines, written)
}
