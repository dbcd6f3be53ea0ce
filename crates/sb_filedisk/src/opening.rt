//! How the file of a disk is opened.

ghost use Rattle.std.specs.Prelude.{◌≤◌, IfOk, IfSome};

use std::fs::{OpenFile, OpenOptions};
use std::io::{self, ErrorKind};
use std::os::unix::fs::MetadataExt;
use std::path::Path;
use std::rt::Files;
use std::str;

/// An open file and how many bytes it had then.
#[derive(Drop)]
pub struct Opened<F> {
    pub file: F,
    pub len: u64,
}

/// Whether a file is made where there is none.
fn makes_file<F>(mounted: &Option<F>, create_size: Option<u64>) -> bool {
    create_size.is_some() && mounted.is_none()
}

/// Opens the file of this name, with a size makes it that long, and syncs it. It has to be the file that is mounted, where one is.
///
/// With a size it makes the file where there is none and none is mounted, and syncs its folder, so that a crash keeps its name.
pub fn open<R: Files>(
    rt: &R,
    mounted: &Option<R::File>,
    name: &[u8],
    create_size: Option<u64>,
) -> io::Result<Opened<R::File>>
    ensures size { IfOk result (λ opened. IfSome create_size (λ size. size ≤ opened.len)) }
{
    let Ok(name) = str::from_utf8(name) else {
        return Err(ErrorKind::InvalidFilename.into());
    };
    let file = OpenOptions::new()
        .read(true)
        .write(true)
        .create(makes_file(mounted, create_size))
        .open(rt, name)?;
    match settle(rt, mounted, name, &file, create_size) {
        Ok(len) => Ok(Opened { file, len }),
        Err(fault) => {
            drop(file);
            Err(fault)
        }
    }
}

/// Makes the file ready to be mounted, and its name too where it makes the file; answers how many bytes it has then.
fn settle<R: Files>(
    rt: &R,
    mounted: &Option<R::File>,
    name: &str,
    file: &R::File,
    create_size: Option<u64>,
) -> io::Result<u64>
    ensures size { IfOk result (λ len. IfSome create_size (λ size. size ≤ len)) }
{
    let len = ready(mounted, file, create_size)?;
    if makes_file(mounted, create_size) {
        sync_folder(rt, name)?;
    }
    Ok(len)
}

/// Makes the file that long and syncs it, unless another one is mounted; answers how many bytes it has then.
fn ready<F: OpenFile>(mounted: &Option<F>, file: &F, create_size: Option<u64>) -> io::Result<u64>
    ensures size { IfOk result (λ len. IfSome create_size (λ size. size ≤ len)) }
{
    if let Some(mounted) = mounted {
        if !is_same(mounted, file)? {
            return Err(ErrorKind::ResourceBusy.into());
        }
    }
    let len = grow(file, create_size)?;
    file.sync_all()?;
    Ok(len)
}

/// Syncs the folder in which the file of this name stands.
fn sync_folder<R: Files>(rt: &R, name: &str) -> io::Result<()> {
    let folder = match Path::new(name).parent() {
        Some(folder) if !folder.as_str().is_empty() => folder.as_str(),
        _ => ".",
    };
    OpenOptions::new().read(true).open(rt, folder)?.sync_all()
}

/// Whether both are the same file of the system.
fn is_same<F: OpenFile>(one: &F, other: &F) -> io::Result<bool> {
    let (one, other) = (one.metadata()?, other.metadata()?);
    Ok(one.dev() == other.dev() && one.ino() == other.ino())
}

/// Makes a shorter file this long, and answers how many bytes it has then.
fn grow<F: OpenFile>(file: &F, create_size: Option<u64>) -> io::Result<u64>
    ensures size { IfOk result (λ len. IfSome create_size (λ size. size ≤ len)) }
{
    let len = file.metadata()?.len();
    match create_size {
        Some(size) if len < size => {
            file.set_len(size)?;
            Ok(size)
        }
        _ => Ok(len),
    }
}
