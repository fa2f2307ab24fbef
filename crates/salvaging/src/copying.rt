// The records of a list, copied one behind the other, and its lines in words.
ghost use Rattle.std.specs.Prelude.{◌≡◌, [], ◌∷◌, ◌*◌, ◌≤◌, length};
ghost use Rattle.output.specs.Put.{put};
ghost use Rattle.salvaging.specs.Inner.{AllWithin};
ghost use Rattle.salvaging.specs.Salvage.{line_bytes, kept_bytes, words_of_lines};

use super::lines::Line;

// The bytes of the record, if it is one.
fn bytes_of(line: Line, log: &[u8]) -> &[u8]
    requires { AllWithin (length log.now) (line ∷ []) }
    ensures { result.now ≡ line_bytes log.now line }
{
    match line {
        Line::Kept {
            position,
            length,
            ..
        } => {
            let from = position as usize;
            let to = from + length as usize;
            &log[from..to]
        }
        Line::Lost { .. } => &[],
    }
}

pub fn put_records(lines: &[Line], log: &[u8], out: &mut [u8])
    requires within { AllWithin (length log.now) lines.now }
    requires room { length (kept_bytes log.now lines.now) ≤ length out.old }
    ensures { out.new ≡ put out.old 0 (kept_bytes log.now lines.now) }
{
    let mut at = 0;
    for line in lines {
        at = output::copy_into(out, at, bytes_of(*line, log));
    }
}

pub fn put_lines(lines: &[Line], list: &mut [u64])
    requires { 4 * length lines.now ≤ length list.old }
    ensures { list.new ≡ put list.old 0 (words_of_lines lines.now) }
{
    for (i, line) in lines.iter().enumerate() {
        let at = 4 * i;
        list[at..at + 4].copy_from_slice(&line.words());
    }
}
