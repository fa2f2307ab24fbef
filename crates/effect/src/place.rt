// Where in the image an action's bytes go.
ghost use Rattle.std.specs.Prelude.{◌≡◌, ◌≤◌};
ghost use Rattle.directory.specs.Directory.{image_length};
ghost use Rattle.effect.specs.Effect.{place_of};
ghost use Rattle.effect.specs.Inner.{spot_under};

use directory::{Layout, TableKind};

// What lies under an index of a table: a position of the image, and how many bytes. The image's length is asked for so that no position in it can
// wrap.
pub fn locate(tables: &Layout, kind: TableKind, number: u16, index: u64) -> Option<(usize, usize)>
    requires { image_length tables.now.directory ≤ 18446744073709551615 }
    ensures { result ≡ spot_under (place_of tables.now.directory kind number) index }
{
    let (start, t) = tables.place(kind, number)?;
    if index < u64::from(t.count) {
        let unit = t.slot_length();
        Some((start + index as usize * unit, unit))
    } else {
        None
    }
}
