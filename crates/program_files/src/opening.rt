// A file opened by the bytes of its path.
use super::message::{Teller, Told};
use std::fs::{File, OpenOptions};
use std::io;
use std::rt::Files;

// std names files by text.
fn text_of(path: &[u8]) -> io::Result<&str> {
    std::str::from_utf8(path).map_err(|_| io::Error::new(
        io::ErrorKind::InvalidInput,
        "the path is no UTF-8",
    ))
}

pub fn open_read<R: Files>(files: &R, path: &[u8]) -> io::Result<R::File> {
    File::open(files, text_of(path)?)
}

pub fn open_told<R: Files, P: Print>(
    files: &R,
    teller: &Teller<P>,
    path: &[u8],
) -> Result<R::File, Told> {
    open_read(files, path).map_err(|why| teller.fail(path, &why))
}

// Fails where there is a file of that name.
pub fn create_new<R: Files>(files: &R, path: &[u8]) -> io::Result<R::File> {
    OpenOptions::new()
        .write(true)
        .create_new(true)
        .open(files, text_of(path)?)
}

pub fn rename(files: &impl Files, from: &[u8], to: &[u8]) -> io::Result<()> {
    std::fs::rename(files, text_of(from)?, text_of(to)?)
}

pub fn remove(files: &impl Files, path: &[u8]) -> io::Result<()> {
    std::fs::remove_file(files, text_of(path)?)
}
