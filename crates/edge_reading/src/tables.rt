// The checksum, and a directory's calls.
ghost use Rattle.std.specs.Prelude.{◌≡◌};
ghost use Rattle.checksum.specs.Checksum.{checksum_of};
ghost use Rattle.directory.specs.Directory.{directory_kept, start_of, image_length};
ghost use Rattle.host_words.specs.Tables.{directory_from};
ghost use Rattle.edge_reading.specs.Reading.{kept_number};

use host_words::directory_of;

#[unsafe(no_mangle)]
pub extern "C" fn hongsathep_checksum(bytes: &[u8]) -> u32
    ensures { result ≡ checksum_of bytes.now }
{
    checksum::checksum(bytes)
}

#[unsafe(no_mangle)]
pub extern "C" fn hongsathep_directory_kept(tables: &[u64]) -> u64
    ensures { result ≡ kept_number (directory_kept (directory_from tables.now)) }
{
    if directory_of(tables).kept() { 0 } else { 13 }
}

#[unsafe(no_mangle)]
pub extern "C" fn hongsathep_image_length(tables: &[u64]) -> usize
    ensures { result ≡ image_length (directory_from tables.now) }
{
    directory_of(tables).image_length()
}

#[unsafe(no_mangle)]
pub extern "C" fn hongsathep_table_start(tables: &[u64], row: usize) -> usize
    ensures { result ≡ start_of (directory_from tables.now) row }
{
    directory_of(tables).start(row)
}
