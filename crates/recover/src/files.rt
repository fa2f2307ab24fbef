// The image's file: read, and replaced.
ghost use Rattle.std.specs.Prelude.{◌≤◌, length};

use log_input::fill;
use program_files::{
    NAME_ROOM, Teller, Told, drop_new, new_name, open_read, put_in_place, start_new,
};
use std::io;
use std::io::{ErrorKind, Read, Seek, SeekFrom, Write};
use std::rt::Files;

// Whether there was an image.
#[derive(Clone, Copy, PartialEq, Eq)]
pub enum Image {
    Old,
    New,
}

// A folder opens for reading and has a length of its own: only a read tells it from a file. Where the file stands afterwards doesn't matter.
fn length_of<F: Read + Seek>(file: &mut F) -> io::Result<u64> {
    let mut one = [0u8; 1];
    file.read(&mut one)?;
    file.seek(SeekFrom::End(0))
}

fn read_opened<F: Read + Seek, P: Print>(
    teller: &Teller<P>,
    file: &mut F,
    path: &[u8],
    image: &mut [u8],
) -> Result<Image, Told> {
    let due = image.len();
    let has = length_of(file).map_err(|why| teller.fail(path, &why))?;
    if has != due as u64 {
        let text = format_args!(": {has} bytes; the directory's image has {due}");
        return Err(teller.tell(path, text));
    }
    let _ = file.seek(SeekFrom::Start(0));
    let held = fill(file, image, 0).map_err(|unfilled| teller.fail(path, &unfilled.why))?;
    if held < due {
        return Err(teller.tell(path, ": the file became shorter while it was read"));
    }
    Ok(Image::Old)
}

// Where there is no file, the image stays as it is.
pub fn read_image<R: Files, P: Print>(
    files: &R,
    teller: &Teller<P>,
    path: &[u8],
    image: &mut [u8],
) -> Result<Image, Told> {
    match open_read(files, path) {
        Ok(mut file) => read_opened(teller, &mut file, path, image),
        Err(why) if why.kind() == ErrorKind::NotFound => {
            teller.tell(path, ": there is no such file; an image of zeros is made");
            Ok(Image::New)
        }
        Err(why) => Err(teller.fail(path, &why)),
    }
}

fn replace_by<R: Files, P: Print>(
    files: &R,
    teller: &Teller<P>,
    name: &[u8],
    path: &[u8],
    image: &[u8],
) -> Result<(), Told> {
    let mut file = start_new(files, teller, name)?;
    if let Err(why) = file.write_all(image) {
        let told = teller.fail(name, &why);
        drop_new(files, file, name);
        return Err(told);
    }
    put_in_place(files, teller, file, name, path)
}

// The image under another name first, so that a failure on the way leaves the old one.
pub fn replace_image<R: Files, P: Print>(
    files: &R,
    teller: &Teller<P>,
    path: &[u8],
    image: &[u8],
) -> Result<(), Told>
    requires { length path.now ≤ 4096 }
{
    let mut space = [0u8; NAME_ROOM];
    let name = new_name(path, &mut space);
    replace_by(files, teller, name, path, image).map_err(|_| teller.tell(
        path,
        ": the image stays as it was",
    ))
}
