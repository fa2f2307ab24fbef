// A reader from words and back.
ghost use Rattle.std.specs.Prelude.{◌≡◌};
ghost use Rattle.host_words.specs.Reader.{reader_read, reader_words};

use record::LogReader;

// The reader that words are, where there are five and each is within its field's range.
#[tactic(auto, unfolding(crate::specs::Reader::reader_formed))]
pub fn reader_of(words: &[u64]) -> Option<LogReader>
    ensures { result ≡ reader_read words.now }
{
    let &[position, record_id, crc32, validate, inside] = words else {
        return None;
    };
    let crc32 = u32::try_from(crc32).ok()?;
    if validate > 1 || inside > 1 {
        return None;
    }
    Some(LogReader {
        position: position as usize,
        record_id,
        crc32,
        validate: validate == 1,
        inside: inside == 1,
    })
}

pub fn reader_words(reader: LogReader) -> [u64; 5]
    ensures { result ≡ reader_words reader }
{
    [
        reader.position as u64,
        reader.record_id,
        u64::from(reader.crc32),
        u64::from(reader.validate),
        u64::from(reader.inside),
    ]
}
