// The drops of a record, in call order. log.rs lines 433 to 442.
ghost use Rattle.std.specs.Prelude.{◌+◌, ◌≤◌, length};
ghost use Rattle.output.specs.Put.{Wrote};
ghost use Rattle.writer.specs.Bytes.{drop_bytes, drops_bytes};

use answer::Tag;
use change::Drops;

fn put_drop(out: &mut [u8], at: usize, tag: Tag, table: u16) -> usize
    requires { at + 3 ≤ length out.old }
    ensures { Wrote out.old at (drop_bytes tag.0 table) out.new result }
{
    let a = output::put_u8(out, at, tag.0);
    output::put_u16(out, a, table)
}

pub(crate) fn put_drops(out: &mut [u8], at: usize, tag: Tag, s: Drops) -> usize
    requires { (s.count ≤ 16) × (at + length (drops_bytes tag.0 s) ≤ length out.old) }
    ensures { Wrote out.old at (drops_bytes tag.0 s) out.new result }
{
    let mut o = at;
    for table in &s.tables[..s.count] {
        o = put_drop(out, o, tag, *table);
    }
    o
}
