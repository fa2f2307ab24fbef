// How long the entries of a mask are.
ghost use Rattle.std.specs.Prelude.{◌≡◌, ◌*◌, ◌≤◌};
ghost use Rattle.std.specs.Int.Count.{ones};

pub fn entries_length(mask: u64, width: usize) -> usize
    requires { width ≤ 16 }
    ensures { (result ≡ ones mask * width) × (result ≤ 1024) }
{
    words::set_bits(mask) * width
}
