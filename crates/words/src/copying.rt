// Copies by a loop of their own: the library's may come to a call of `memmove`, which an archive for C would then need from outside.
ghost use Rattle.std.specs.Prelude.{◌≡◌, length};

// All of `from` over `to`, as the library's method of this name does.
pub fn copy_from_slice<T: Copy>(to: &mut [T], from: &[T])
    requires { length to.old ≡ length from.now }
    ensures len { length to.new ≡ length to.old }
    ensures after { to.new ≡ from.now }
{
    for i in 0..from.len() {
        to[i] = from[i];
    }
}
