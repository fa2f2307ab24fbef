// The set bits of a mask.
ghost use Rattle.std.specs.Prelude.{◌≡◌, ◌+◌, ◌-◌, ◌*◌, ◌^◌, ◌≤◌, ◌<◌, MatchOption};
ghost use Rattle.std.specs.Int.Count.{ones};
ghost use Rattle.std.specs.Iterator.{at_most};
ghost use Rattle.words.specs.Words.{Passes};

// How many bits of a mask are set.
pub fn set_bits(mask: u64) -> usize
    ensures { (result ≡ ones mask) × (result ≤ 64) }
{
    mask.count_ones() as usize
}

// A run of set bits of a mask: its lowest bit, and how many there are.
#[derive(Clone, Copy)]
pub struct BitRun {
    pub from: usize,
    pub count: usize,
}

// The runs of set bits of a mask, lowest first: those of `rest`, whose lowest bit is bit `from` of the mask.
#[derive(Clone, Copy)]
pub struct BitRuns {
    pub from: usize,
    pub rest: u64,
    ghost within: { from ≤ 64 },
    ghost below: { rest < 2 ^ (64 - from) },
}

impl BitRuns {
    pub fn of(mask: u64) -> BitRuns
        ensures { (result.from ≡ 0) × (result.rest ≡ mask) }
    {
        BitRuns {
            from: 0,
            rest: mask,
        }
    }
}

impl Iterator for BitRuns {
    type Item = BitRun;

    ghost next_gives = { λ s r t. MatchOption r (s.rest ≡ 0) (λ x. Passes s.from s.rest x.from x.count t.from t.rest) };

    ghost remaining = { λ s. at_most (64 - s.from) };

    fn next(&mut self) -> Option<BitRun> {
        if self.rest == 0 {
            return None;
        }
        let run = next_run(self.rest);
        let from = self.from + run.clear;
        *self = BitRuns {
            from: from + run.set,
            rest: run.rest,
        };
        Some(BitRun {
            from,
            count: run.set,
        })
    }
}

// A mask from its lowest bit on: so many clear bits, so many set ones, then the rest.
#[derive(Clone, Copy)]
pub struct Run {
    pub clear: usize,
    pub set: usize,
    pub rest: u64,
}

// The lowest run of set bits. Its lowest bit goes by a division: a run of all 64 would be too long for a shift.
pub fn next_run(mask: u64) -> Run
    requires { 0 < mask }
    ensures { (mask ≡ (result.rest * 2 ^ result.set + (2 ^ result.set - 1)) * 2 ^ result.clear) × (0 < result.set) }
{
    let clear = mask.trailing_zeros();
    let above = (mask >> clear) / 2;
    let more = above.trailing_ones();
    Run {
        clear: clear as usize,
        set: more as usize + 1,
        rest: above >> more,
    }
}
