// A value copied out of the memory that it lies in.
ghost use Rattle.std.specs.Prelude.{◌≡◌};
ghost use Rattle.query.specs.Query.{copied_over};

pub(crate) fn copy_over(dest: &mut [u8], bytes: &[u8])
    ensures { dest.new ≡ copied_over bytes.now dest.old }
{
    let n = dest.len().min(bytes.len());
    words::copy_from_slice(&mut dest[..n], &bytes[..n]);
}
