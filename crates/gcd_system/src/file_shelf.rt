// A shelf over the system's files.
ghost use Rattle.std.specs.Prelude.{◌≡◌, ◌≤◌, ◌<◌, ℕ, false, None, length, OnOk, IsErrOf};

use gcd_outer::{LoadFault, Shelf};
use std::fs::{self, OpenFile};
use std::io::{ErrorKind, Read};
use std::rt::Files;

/// A shelf over the system's files; a name is a path from the folder that the program runs in. It
/// tells nothing. Whatever fails in the system, a missing file too, is counted as its fault.
#[derive(Drop)]
pub struct FileShelf<'a, R: Files> {
    rt: &'a R,
    faults: u64,
}

impl<'a, R: Files> FileShelf<'a, R> {
    /// A shelf that has not failed yet.
    pub fn new(rt: &'a R) -> Self
        ensures { (⟦<FileShelf<'a, R> as Shelf>⟧.state result).faults ≡ 0 }
    {
        FileShelf { rt, faults: 0 }
    }
}

impl<'a, R: Files> Shelf for FileShelf<'a, R> {
    ghost tells = { false };

    ghost state = { λ s. record { content = λ _. None; loads = 0; faults = s.faults } };

    fn load(&mut self, name: &str, most: usize, into: &mut Vec<u8>) -> Result<(), LoadFault> {
        into.clear();
        match fs::open(self.rt, name) {
            Err(_) => {
                self.faults = self.faults.saturating_add(1);
                Err(LoadFault::Failed)
            }
            Ok(file) => match read_whole(file, most, into) {
                Ok(()) => Ok(()),
                Err(fault) => {
                    into.clear();
                    if fault == LoadFault::Failed {
                        self.faults = self.faults.saturating_add(1);
                    }
                    Err(fault)
                }
            },
        }
    }
}

// The number of bytes that the file says it has; 0 if it does not say.
fn said_size<F: OpenFile>(file: &F) -> u64 {
    match file.metadata() {
        Ok(about) => about.len(),
        Err(_) => 0,
    }
}

// Reads to the end, or until more than `most` bytes are there. Makes room at once for the size that the file says it has.
fn read_whole<F: Read + OpenFile + Drop>(
    file: F,
    most: usize,
    into: &mut Vec<u8>,
) -> Result<(), LoadFault>
    ensures fits { OnOk result (length into.new.items ≤ most) }
    ensures no_missing { IsErrOf result LoadFault.Missing → ⊥ }
    ensures seen { (n : ℕ) → IsErrOf result (LoadFault.TooLong n) → most < n }
{
    into.clear();
    let size = said_size(&file).min(most as u64) as usize;
    if into.reserve(size.saturating_add(1)).is_err() {
        return Err(LoadFault::Memory);
    }
    let limit = (most as u64).saturating_add(1);
    match file.take(limit).read_to_end(into) {
        Ok(_) => {
            if into.len() > most {
                return Err(LoadFault::TooLong(into.len()));
            }
            Ok(())
        }
        Err(e) => {
            if e.kind() == ErrorKind::OutOfMemory {
                return Err(LoadFault::Memory);
            }
            Err(LoadFault::Failed)
        }
    }
}
