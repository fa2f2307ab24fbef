// LIST_SUM: what a list holds, with checksums for its bytes.
ghost use Rattle.std.specs.Prelude.{◌+◌, ◌≤◌};

use super::list::List;
use change::Drops;
use compare_keys::put_keys;
use compare_lines::{Fault, Fields, Line};
use memory::Holder;

fn put_drops(line: &mut Line, drops: Drops)
    requires { line.old.held + 66 ≤ 81920 }
    ensures { line.new.held ≤ line.old.held + 66 }
{
    let n = drops.count.min(16);
    line.put(n as u64, 2);
    for table in &drops.tables[..n] {
        line.put(u64::from(*table), 4);
    }
}

pub fn list_sum(list: &List, fields: Fields, line: &mut Line) -> Result<(), Fault> {
    fields.end()?;
    let l = list.list;
    line.clear();
    line.put(l.record_id, 8);
    put_keys(line, Holder::List, l.counts, &list.words, &list.bytes);
    put_drops(line, l.dropped_tables);
    put_drops(line, l.dropped_ref_count_tables);
    Ok(())
}
