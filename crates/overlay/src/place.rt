// One place moved into another: its row, its slot, and its name in the order.
ghost use Rattle.std.specs.Prelude.{◌≡◌, ◌+◌, ◌*◌, ◌<◌, ◌≤◌, length};
ghost use Rattle.keys.specs.Keys.{cut_out, rename_all};
ghost use Rattle.overlay.specs.Overlay.{row_moved, slot_moved};

// Row q over row p.
pub fn row_move(rows: &mut [u64], q: usize, p: usize)
    requires { (4 * p + 4 ≤ length rows.old) × (4 * q + 4 ≤ length rows.old) }
    ensures { rows.new ≡ row_moved rows.old q p }
{
    rows.copy_within(4 * q..4 * q + 4, 4 * p);
}

// Slot q over slot p, which is no later. The last place moved into itself costs nothing.
pub fn slot_move(bytes: &mut [u8], s: usize, q: usize, p: usize)
    requires { (p ≤ q) × (s * q + s ≤ length bytes.old) }
    ensures { bytes.new ≡ slot_moved s bytes.old q p }
{
    if p != q {
        bytes.copy_within(s * q..s * q + s, s * p);
    }
}

// What stands at j of the order taken out, and the last place named p.
pub fn order_move(order: &mut [u64], j: usize, last: usize, p: usize)
    requires { (j ≤ last) × (last < length order.old) }
    ensures { order.new ≡ rename_all last last p (cut_out j last order.old) }
{
    keys::cut(order, j, last);
    keys::rename(order, last, last as u64, p as u64);
}
