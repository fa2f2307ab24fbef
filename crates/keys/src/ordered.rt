// The keys of one kind in their order.
ghost use Rattle.std.specs.Prelude.{◌≡◌, true, ◌+◌, ◌*◌, ◌<◌, ◌≤◌, length, ltb, get_or, IsTrue};
ghost use Rattle.numbers.specs.Numbers.{spot, one_if};
ghost use Rattle.keys.specs.Keys.{rank_of, ruled, holds, news};

use super::key::{Key, key_in};

// The keys of one kind, lent: their rows, and the order, which lists the places in use by ascending keys.
#[derive(Clone, Copy)]
pub struct Keys<'a> {
    pub rows: &'a [u64],
    pub order: &'a [u64],
    ghost in_rows: { 4 * length order.now ≤ length rows.now },
    ghost ruled: { ruled rows.now order.now (length order.now) ≡ true },
}

// Whether the order names places in use, in strictly ascending order of their keys: no key is there twice.
pub fn ascending(rows: &[u64], order: &[u64]) -> bool
    requires { 4 * length order.now ≤ length rows.now }
    ensures { result ≡ ruled rows.now order.now (length order.now) }
{
    if !numbers::all_below(order, order.len() as u64) {
        return false;
    }
    for j in 1..order.len() {
        let before = key_in(rows, order[j - 1] as usize);
        if key_in(rows, order[j] as usize).rank() <= before.rank() {
            return false;
        }
    }
    true
}

impl<'a> Keys<'a> {
    ghost use Rattle.keys.specs.Lent.{keys_in};

    // The key at j of the order.
    fn key(self, j: usize) -> Key
        requires { j < length self.order.now }
        ensures { rank_of result ≡ get_or (keys_in self.entry) j 0 }
    {
        key_in(self.rows, self.order[j] as usize)
    }

    // 1 if the key at j stands below, else 0: a number, so that no branch hangs on it.
    fn passed(self, key: Key, j: usize) -> usize
        requires { j < length self.order.now }
        ensures value { result ≡ one_if (ltb j (spot (rank_of key) (keys_in self.entry))) }
        ensures bound { result ≤ 1 }
    {
        usize::from(self.key(j).rank() < key.rank())
    }

    // Where the key stands or belongs. Each turn asks three keys at once and leaves a quarter.
    pub fn place(self, key: Key) -> usize
        ensures { result ≡ spot (rank_of key) (keys_in self.entry) }
    {
        let mut low = 0;
        let mut left = self.order.len();
        while 2 < left {
            let q = (left + 1) / 4;
            let a = self.passed(key, low + q - 1);
            let b = self.passed(key, low + 2 * q - 1);
            let c = self.passed(key, low + 3 * q - 1);
            low += q * (a + b + c);
            left -= 3 * q;
        }
        match left {
            0 => low,
            1 => low + self.passed(key, low),
            _ => low + self.passed(key, low) + self.passed(key, low + 1),
        }
    }

    // Whether the key stands at j: its row is then within bounds.
    pub fn stands(self, key: Key, j: usize) -> bool
        ensures value { result ≡ holds (rank_of key) j (keys_in self.entry) }
        ensures row { IsTrue result → (j < length self.entry.order.now) × (4 * get_or self.entry.order.now j 0 + 4 ≤ length self.entry.rows.now) }
    {
        j < self.order.len() && self.key(j) == key
    }

    // How many of the listed keys these lack: one pass over both.
    pub fn lacking(self, listed: Keys<'_>) -> usize
        ensures { result ≡ news (keys_in self.entry) (keys_in listed.entry) }
    {
        let mut lacking = 0;
        let mut i = 0;
        for j in 0..listed.order.len() {
            let key = listed.key(j);
            while i < self.order.len() && self.key(i).rank() < key.rank() {
                i += 1;
            }
            if !self.stands(key, i) {
                lacking += 1;
            }
        }
        lacking
    }
}
