// The second pass over a record: its actions onto the image.
ghost use Rattle.std.specs.Prelude.{◌≡◌, true, length};
ghost use Rattle.directory.specs.Directory.{image_length};
ghost use Rattle.replay.specs.Inner.{is_walked, Walker};
ghost use Rattle.replay.specs.Replay.{rest_in, image_after};

use directory::Layout;
use record::LogReader;

// It meets no refusal, since the first pass met none.
pub fn apply_rest(layout: &Layout, log: &[u8], r: LogReader, image: &mut [u8])
    requires walker { Walker log.now r }
    requires walks { is_walked (rest_in layout.now.directory log.now r) ≡ true }
    requires image { length image.old ≡ image_length layout.now.directory }
    ensures { image.new ≡ image_after layout.now.directory image.old (rest_in layout.now.directory log.now r) }
{
    let mut at = r.position;
    while let Ok(item) = record::item_at(&layout.directory, log, at, r.validate, r.crc32) {
        if item.action.is_end() {
            return;
        }
        at = item.start + item.length;
        effect::apply_action(layout, item.action, &log[item.start..at], image);
    }
}
