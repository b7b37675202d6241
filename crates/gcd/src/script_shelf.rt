// The files that a script names.
ghost use Rattle.std.specs.Prelude.{◌≡◌, ◌≤◌, ◌<◌, ℕ, false, None, length, OnOk, IsErrOf};

use crate::folders::Folders;
use crate::missed::{Kind, Missed};
use gcd_outer::{LoadFault, Shelf};
use gcd_system::FileShelf;
use std::alloc::{AllocError, Global};
use std::rt::Files;

/// The system's files. The first so many names are words of the call: the script's is taken as it is, and the journal's is looked up
/// from the folder in which the program runs, and then beside the script. Each further name is a path of the script ([`Folders`]), so
/// that a script has the same files wherever it is called from. The shelf tells nothing. A name that can be read in neither place
/// counts as one fault, and is kept as what was missed last. The contents of the words are kept, while memory suffices, so that it can
/// be told later what is wrong with them.
#[derive(Drop)]
pub struct ScriptShelf<'a, R: Files + Eprint> {
    alloc: Global,
    files: FileShelf<'a, R>,
    folders: Folders<'a, R>,
    faults: u64,
    words: usize,
    loads: usize,
    keeps: bool,
    kept: Vec<Vec<u8>>,
    missed: Option<Missed>,
}

impl<'a, R: Files + Eprint> ScriptShelf<'a, R> {
    /// The files of a script under this path, where the first so many names are words of the call. No fault is counted yet.
    pub fn new(rt: &'a R, alloc: Global, script: &'a str, words: usize) -> Self
        ensures { (⟦<ScriptShelf<'a, R> as Shelf>⟧.state result).faults ≡ 0 }
    {
        ScriptShelf {
            alloc,
            files: FileShelf::new(rt),
            folders: Folders::of(rt, alloc, script),
            faults: 0,
            words,
            loads: 0,
            keeps: true,
            kept: Vec::new(alloc),
            missed: None,
        }
    }

    /// The content of the word of this number, from 0, that was loaded; None where it was not kept.
    pub fn kept(&self, place: usize) -> Option<&[u8]> {
        match self.kept.get(place) {
            Some(content) => Some(content.as_slice()),
            None => None,
        }
    }

    /// What could not be read last.
    pub fn missed(&self) -> Option<&Missed> {
        self.missed.as_ref()
    }

    // Keeps the content of a word. After one for which memory did not suffice, no more are kept.
    fn keep(&mut self, content: &[u8])
        ensures { self.new.faults ≡ self.old.faults }
    {
        if self.keeps && self.kept.len() < self.words {
            match Vec::from_slice(self.alloc, content) {
                Ok(copy) => self.keeps = self.kept.push(copy).is_ok(),
                Err(AllocError) => self.keeps = false,
            }
        }
    }

    // The path of the name beside the script, if it is looked up there: the first name is the script's own. An `Err` comes only where
    // memory runs out.
    fn beside(&self, name: &str) -> Result<Option<String>, AllocError> {
        if self.loads == 0 {
            return Ok(None);
        }
        self.folders.beside(name)
    }

    // Keeps that the file could not be read.
    fn miss(&mut self, name: &str)
        ensures { self.new.faults ≡ self.old.faults }
    {
        let said = match self.beside(name) {
            Ok(Some(beside)) => self.folders.said(Some(beside.as_str()), name),
            Ok(None) => self.folders.said(None, name),
            Err(AllocError) => String::new(self.alloc),
        };
        self.missed = Missed::of(self.alloc, Kind::File, name, said).ok();
    }

    // The two paths of a name in the script: beside it, and else from the folder in which the program runs.
    fn load_path(
        &mut self,
        paths: (&str, &str),
        most: usize,
        into: &mut Vec<u8>,
    ) -> Result<(), LoadFault>
        ensures fits { OnOk result (length into.new.items ≤ most) }
        ensures seen { (n : ℕ) → IsErrOf result (LoadFault.TooLong n) → most < n }
        ensures told { IsErrOf result LoadFault.Missing → ⊥ }
        ensures faults { self.new.faults ≡ self.old.faults }
    {
        match self.files.load(paths.0, most, into) {
            Ok(()) => {
                self.folders.note(paths.0, paths.1);
                Ok(())
            }
            Err(LoadFault::Failed) => self.files.load(paths.1, most, into),
            Err(fault) => Err(fault),
        }
    }

    // From the folders in which the name is looked up.
    fn load_either(&mut self, name: &str, most: usize, into: &mut Vec<u8>) -> Result<(), LoadFault>
        ensures fits { OnOk result (length into.new.items ≤ most) }
        ensures seen { (n : ℕ) → IsErrOf result (LoadFault.TooLong n) → most < n }
        ensures told { IsErrOf result LoadFault.Missing → ⊥ }
        ensures faults { self.new.faults ≡ self.old.faults }
    {
        match self.beside(name) {
            Ok(Some(beside)) if self.loads >= self.words => {
                self.load_path((beside.as_str(), name), most, into)
            }
            Ok(Some(beside)) => match self.files.load(name, most, into) {
                Err(LoadFault::Failed) => self.files.load(beside.as_str(), most, into),
                loaded => loaded,
            },
            Ok(None) => self.files.load(name, most, into),
            Err(AllocError) => Err(LoadFault::Memory),
        }
    }
}

impl<'a, R: Files + Eprint> Shelf for ScriptShelf<'a, R> {
    ghost tells = { false };

    ghost state = { λ s. record { content = λ _. None; loads = 0; faults = s.faults } };

    fn load(&mut self, name: &str, most: usize, into: &mut Vec<u8>) -> Result<(), LoadFault> {
        let loaded = self.load_either(name, most, into);
        match loaded {
            Ok(()) => self.keep(into),
            Err(fault) => {
                into.clear();
                if fault == LoadFault::Failed {
                    self.miss(name);
                    self.faults = self.faults.saturating_add(1);
                }
            }
        }
        self.loads = self.loads.saturating_add(1);
        loaded
    }
}
