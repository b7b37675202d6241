// Where the files and feeds of a script are looked up.

use std::alloc::{AllocError, Global};
use std::fs::Files;
use std::io::Read;
use std::path::PathBuf;
use std::{fs, io};

/// The folders in which the paths of a script are looked up: first its own, then the one in which the program runs.
#[derive(Drop)]
pub struct Folders<'a, R: Files + Eprint> {
    rt: &'a R,
    alloc: Global,
    script: &'a str,
    is_noted: bool,
}

impl<'a, R: Files + Eprint> Folders<'a, R> {
    /// The folders of the script under this path.
    pub fn of(rt: &'a R, alloc: Global, script: &'a str) -> Self {
        Folders {
            rt,
            alloc,
            script,
            is_noted: false,
        }
    }

    /// The path from the script's folder. None if it is the same from both folders: the path or the script's folder is not named. An
    /// `Err` comes only where memory runs out.
    pub fn beside(&self, path: &str) -> Result<Option<String>, AllocError> {
        match self.script.rsplit_once('/') {
            Some((folder, _)) if !path.starts_with('/') => {
                Ok(Some(format!(in self.alloc; "{folder}/{path}")?))
            }
            _ => Ok(None),
        }
    }

    // Where the path leads, if it leads anywhere.
    fn place(&self, path: &str) -> Option<PathBuf> {
        self.rt.canonicalize(self.alloc, path).ok()
    }

    /// Notes on standard error, once, that the file beside the script was taken, if the path leads to another one from the folder in
    /// which the program runs.
    pub fn note(&mut self, beside: &str, path: &str) {
        if self.is_noted {
            return;
        }
        let Some(other) = self.place(path) else {
            return;
        };
        let Some(taken) = self.place(beside) else {
            return;
        };
        if taken.as_str() != other.as_str() {
            self.is_noted = true;
            let script = self.script;
            let _ = eprintln!(self.rt;
                "{script}: note: {path} is read beside the script, as {beside}, and this folder has one too"
            );
        }
    }

    // Why nothing can be read at the path. None if a byte can be read there, or its end, or if an attempt could wait for others, as at a
    // pipe.
    fn error_at(&self, path: &str) -> Option<io::Error> {
        match fs::metadata(self.rt, path) {
            Ok(found) if found.is_file() || found.is_dir() => self.read_at(path).err(),
            Ok(_) => None,
            Err(error) => Some(error),
        }
    }

    // Reads a byte.
    fn read_at(&self, path: &str) -> io::Result<usize> {
        let mut byte = [0u8; 1];
        fs::open(self.rt, path)?.read(&mut byte)
    }

    // Why nothing can be read at the first of the paths that leads somewhere.
    fn error_of(&self, beside: Option<&str>, path: &str) -> Option<io::Error> {
        let there = match beside {
            Some(beside) => self.error_at(beside),
            None => return self.error_at(path),
        };
        match there {
            Some(error) if error.kind() == io::ErrorKind::NotFound => self.error_at(path),
            other => other,
        }
    }

    /// What the system says of a path that could not be read, and where it was looked for: beside the script, if that is another place,
    /// and as it is. Empty if the system says nothing, or if memory runs out.
    pub fn said(&self, beside: Option<&str>, path: &str) -> String {
        let said = match (self.error_of(beside, path), beside) {
            (Some(error), Some(beside)) => {
                format!(in self.alloc; "{error}; looked for as {beside} and as {path}")
            }
            (Some(error), None) => format!(in self.alloc; "{error}"),
            (None, _) => return String::new(self.alloc),
        };
        said.unwrap_or(String::new(self.alloc))
    }
}
