// A file written under another name, brought to its device, and only then put in its place.
ghost use Rattle.std.specs.Prelude.{◌+◌, ◌≤◌, ◌≡◌, length};

use super::message::{Teller, Told};
use super::opening::{create_new, remove, rename};
use std::fs::OpenFile;
use std::io::ErrorKind;
use std::rt::Files;

pub const NAME_ROOM: usize = 4100;

// The path and ".new", put into a name.
pub fn new_name<'a>(path: &[u8], name: &'a mut [u8; NAME_ROOM]) -> &'a [u8]
    requires { length path.now ≤ 4096 }
    ensures { length result.now ≤ 4100 }
{
    let end = path.len() + 4;
    name[..path.len()].copy_from_slice(path);
    name[path.len()..end].copy_from_slice(b".new");
    &name[..end]
}

// A file of that name that is there already may be another run's.
pub fn start_new<R: Files, P: Print>(
    files: &R,
    teller: &Teller<P>,
    name: &[u8],
) -> Result<R::File, Told> {
    create_new(files, name).map_err(|why| {
        let told = teller.fail(name, &why);
        if why.kind() == ErrorKind::AlreadyExists {
            teller.tell(name, ": remove it if no other run is at work");
        }
        told
    })
}

pub fn drop_new<R: Files>(files: &R, file: R::File, name: &[u8]) {
    drop(file);
    let _ = remove(files, name);
}

// The file is whole on its device then, under its own path. Where that fails, the path is as it was.
pub fn put_in_place<R: Files, P: Print>(
    files: &R,
    teller: &Teller<P>,
    file: R::File,
    name: &[u8],
    path: &[u8],
) -> Result<(), Told> {
    if let Err(why) = file.sync_all() {
        let told = teller.fail(name, &why);
        drop_new(files, file, name);
        return Err(told);
    }
    drop(file);
    rename(files, name, path).map_err(|why| {
        let told = teller.fail(path, &why);
        let _ = remove(files, name);
        told
    })
}
