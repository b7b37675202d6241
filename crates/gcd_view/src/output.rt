// Where a picture is written.

use std::alloc::Global;
use std::fs::{File, OpenFile};
use std::io::{ErrorKind, Write};
use std::rt::Files;
use std::{fs, io};

// The most names that are tried for a new file.
const MOST_NAMES: u32 = 1_000;

// Makes a new file beside the path, and gives its path: the path with the first number after it that no file has yet.
fn create_beside<R: Files>(rt: &R, alloc: Global, path: &str) -> io::Result<(String, R::File)> {
    for number in 0..MOST_NAMES {
        let name = format!(in alloc; "{path}.{number}.part")?;
        match File::create_new(rt, name.as_str()) {
            Ok(file) => return Ok((name, file)),
            Err(error) if error.kind() == ErrorKind::AlreadyExists => {}
            Err(error) => return Err(error),
        }
    }
    Err(io::Error::from(ErrorKind::AlreadyExists))
}

// Writes the text to a new file, up to its disk.
fn fill<F: Write + OpenFile + Drop>(mut file: F, text: &str) -> io::Result<()> {
    file.write_all(text.as_bytes())?;
    file.sync_all()
}

// Whether the path is that of something other than a file, such as a device or a pipe.
fn is_special<R: Files>(rt: &R, path: &str) -> bool {
    match fs::metadata(rt, path) {
        Ok(found) => !found.is_file(),
        Err(_) => false,
    }
}

/// Writes the text to the file of this path, whole or not at all: to a new file beside it, which then takes its name. If that fails,
/// the path keeps what it had. A device or a pipe takes the text as it is written.
pub fn write_file<R: Files>(rt: &R, alloc: Global, path: &str, text: &str) -> io::Result<()> {
    if is_special(rt, path) {
        return fs::write(rt, path, text);
    }
    let (name, file) = create_beside(rt, alloc, path)?;
    let written = match fill(file, text) {
        Ok(()) => fs::rename(rt, name.as_str(), path),
        failed => failed,
    };
    if written.is_err() {
        let _ = fs::remove_file(rt, name.as_str());
    }
    written
}
