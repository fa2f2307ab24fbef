// The effect of each kind of action, and of any.
ghost use Rattle.std.specs.Prelude.{◌≡◌, [], ◌∷◌, length, take};
ghost use Rattle.directory.specs.Directory.{image_length};
ghost use Rattle.directory.specs.declared.table.TableKind.TheVariants.{Value};
ghost use Rattle.effect.specs.Effect.{written, mask_in, entries_in, place_of, stroke, slot_strokes, under_index, zeroed, puts, done};
ghost use Rattle.effect.specs.Meaning.{Entries, OneValue, SizedBy};
ghost use Rattle.effect.specs.Inner.{Chunks};

use super::place::locate;
use super::store::put_slots;
use directory::{Layout, TableKind};
use record::LogAction;

// The entries that a mask names, under an index of a table with chunks of 64 entries.
fn insert_chunk(
    tables: &Layout,
    kind: TableKind,
    width: usize,
    number: u16,
    index: u64,
    payload: &[u8],
    image: &mut [u8],
)
    requires image { length image.old ≡ image_length tables.now.directory }
    requires chunks { Chunks kind width }
    requires entries { Entries width payload.now }
    ensures { image.new ≡ puts (under_index (place_of tables.now.directory kind number) index (λ at u. slot_strokes 64 width at (mask_in payload.now) (entries_in payload.now))) image.old }
{
    if let Some((at, _)) = locate(tables, kind, number, index) {
        put_slots(image, at, width, words::u64_at(payload, 0), &payload[8..]);
    }
}

// A value, under an index of a table of values.
fn insert_value(tables: &Layout, number: u16, index: u64, payload: &[u8], image: &mut [u8])
    requires image { length image.old ≡ image_length tables.now.directory }
    requires one_value { OneValue (place_of tables.now.directory Value number) payload.now }
    ensures { image.new ≡ puts (under_index (place_of tables.now.directory Value number) index (λ at u. stroke at (take u payload.now) ∷ [])) image.old }
{
    if let Some((at, unit)) = locate(tables, TableKind::Value, number, index) {
        words::copy_from_slice(&mut image[at..at + unit], &payload[..unit]);
    }
}

// Zeros over a whole table.
fn drop_table(tables: &Layout, kind: TableKind, number: u16, image: &mut [u8])
    requires { length image.old ≡ image_length tables.now.directory }
    ensures { image.new ≡ puts (zeroed (place_of tables.now.directory kind number)) image.old }
{
    if let Some((at, t)) = tables.place(kind, number) {
        let end = at + t.size();
        image[at..end].fill(0);
    }
}

// An action with its payload, all that stands behind its index in the log.
#[tactic(auto, unfolding(crate::specs::Effect::done, crate::specs::Effect::strokes, crate::specs::Effect::puts, crate::specs::Meaning::SizedBy))]
pub fn apply_action(tables: &Layout, action: LogAction, payload: &[u8], image: &mut [u8])
    requires image { length image.old ≡ image_length tables.now.directory }
    requires sized_by { SizedBy tables.now.directory action payload.now }
    ensures { image.new ≡ done tables.now.directory (written action payload.now) image.old }
{
    match action {
        LogAction::BeginRecord | LogAction::EndRecord => {}
        LogAction::InsertIndex(a) => {
            insert_chunk(
                tables,
                TableKind::Index,
                8,
                a.table.0,
                a.index,
                payload,
                image,
            );
        }
        LogAction::InsertValue(a) => insert_value(tables, a.table.0, a.index, payload, image),
        LogAction::InsertRefCount(a) => {
            insert_chunk(
                tables,
                TableKind::RefCount,
                16,
                a.table.0,
                a.index,
                payload,
                image,
            );
        }
        LogAction::DropTable(table) => drop_table(tables, TableKind::Index, table.0, image),
        LogAction::DropRefCountTable(table) => drop_table(
            tables,
            TableKind::RefCount,
            table.0,
            image,
        ),
    }
}
