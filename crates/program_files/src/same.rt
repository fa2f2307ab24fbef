// Whether two files that are open are one, by the path that the system keeps for each.
use std::alloc::Global;
use std::fs::File;
use std::io;
use std::io::ErrorKind;
use std::os::fd::AsRawFd;
use std::os::unix::fs::MetadataExt;
use std::path::PathBuf;
use std::rt::Files;

fn descriptor_path(alloc: Global, file: &File) -> io::Result<PathBuf> {
    let number = file.as_raw_fd();
    let text = format!(in alloc; "/proc/self/fd/{number}")?;
    Ok(PathBuf::from(text))
}

// No path where it is no UTF-8, since std has paths as text.
fn path_of<R: Files + AllocGlobal>(rt: &R, file: &File) -> io::Result<Option<PathBuf>> {
    match std::fs::read_link(rt, descriptor_path(rt.alloc(), file)?) {
        Ok(path) => Ok(Some(path)),
        Err(why) if why.raw_os_error().is_none() && why.kind() == ErrorKind::InvalidFilename => {
            Ok(None)
        }
        Err(why) => Err(why),
    }
}

fn same_node(a: &File, b: &File) -> io::Result<bool> {
    let first = a.metadata()?;
    let second = b.metadata()?;
    Ok(first.dev() == second.dev() && first.ino() == second.ino())
}

fn told_same<R: Files + AllocGlobal>(rt: &R, a: &File, b: &File) -> io::Result<bool> {
    match (path_of(rt, a)?, path_of(rt, b)?) {
        (Some(first), Some(second)) => Ok(first.as_str() == second.as_str()),
        (None, None) => same_node(a, b),
        _ => Ok(false),
    }
}

// Where the system doesn't tell, they may be.
pub fn same_file<R: Files + AllocGlobal>(rt: &R, a: &File, b: &File) -> bool {
    told_same(rt, a, b).unwrap_or(true)
}
