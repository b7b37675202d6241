// The feeds that a script names.
ghost use Rattle.std.specs.Prelude.{◌≡◌, false};

use crate::folders::Folders;
use crate::missed::{Kind, Missed};
use gcd_outer::{Failed, Poller, Told};
use gcd_system::NetPoller;
use std::alloc::{AllocError, Global};
use std::fs::File;
use std::net::{Net, SocketAddr, TcpListener};
use std::rt::Files;
use std::{fs, io};

/// A poller that knows at which address it accepts connections.
pub trait Hears {
    /// The address at which connections are accepted; an error where there is none.
    fn heard_at(&self) -> io::Result<SocketAddr>;
}

impl<'a, R: Net + Files<File = File>> Hears for NetPoller<'a, R> {
    fn heard_at(&self) -> io::Result<SocketAddr> {
        self.local_addr()
    }
}

/// How long the poller waits for bytes before it says so, in milliseconds.
const PATIENCE: u32 = 2000;

/// A poller of the feeds that a script names. Their paths are looked up as those of its files are ([`Folders`]): from the script's
/// folder, and if no regular file is there from the folder in which the program runs. The path `tcp` is no name of a file, and is handed
/// on as it is. If memory runs out for a path, an empty one is watched, so that a fault is counted. The poller tells nothing, since the
/// system's files decide which path is watched. If connections are accepted at a port that the system chose, it says so on standard
/// error, and if that is a terminal also that it has waited for long. What failed last is kept.
#[derive(Drop)]
pub struct ScriptPoller<'a, R: Net + Files<File = File> + Eprint, P: Poller + Hears> {
    rt: &'a R,
    alloc: Global,
    feeds: P,
    folders: Folders<'a, R>,
    // How long it may still wait for bytes before it says so; None if it does not say so, or no more.
    patience: Option<u32>,
    missed: Option<Missed>,
}

impl<'a, R: Net + Files<File = File> + Eprint, P: Poller + Hears> ScriptPoller<'a, R, P> {
    /// The feeds of a script under this path, over a poller. It says that it waits for long if a person watches.
    pub fn new(rt: &'a R, alloc: Global, feeds: P, script: &'a str, is_watched: bool) -> Self
        ensures { ⟦<ScriptPoller<'a, R, P> as Poller>⟧.state result ≡ P.state feeds }
    {
        ScriptPoller {
            rt,
            alloc,
            feeds,
            folders: Folders::of(rt, alloc, script),
            patience: if is_watched { Some(PATIENCE) } else { None },
            missed: None,
        }
    }

    /// What failed last.
    pub fn missed(&self) -> Option<&Missed> {
        self.missed.as_ref()
    }

    // Keeps that it failed.
    fn miss(&mut self, kind: Kind, name: &str, said: String)
        ensures { self.new.feeds ≡ self.old.feeds }
    {
        self.missed = Missed::of(self.alloc, kind, name, said).ok();
    }

    // The words as a text of its own; empty if memory runs out.
    fn owned(&self, words: &str) -> String {
        String::from_str(self.alloc, words).unwrap_or(String::new(self.alloc))
    }

    // What is said of a feed that cannot be watched.
    fn said(&self, path: &str) -> String {
        if path == "tcp" {
            return self.owned("connections are accepted at no address (--listen)");
        }
        let said = match self.folders.beside(path) {
            Ok(Some(beside)) => self.folders.said(Some(beside.as_str()), path),
            _ => self.folders.said(None, path),
        };
        if said.is_empty() {
            return self.owned("it is no regular file");
        }
        said
    }

    // What the system says if connections are to be accepted at that address.
    fn refusal(&self, addr: &str) -> String {
        let Ok(parsed) = addr.parse::<SocketAddr>() else {
            return self.owned("it is no IP address with a port");
        };
        match TcpListener::bind(self.rt, parsed) {
            Ok(_) => String::new(self.alloc),
            Err(error) => format!(in self.alloc; "{error}").unwrap_or(String::new(self.alloc)),
        }
    }

    // Says that it waits, once it has waited for long without a byte.
    fn wait(&mut self, wait_ms: u32, told: &Told)
        ensures { self.new.feeds ≡ self.old.feeds }
    {
        let Some(left) = self.patience else {
            return;
        };
        if !told.is_empty() {
            self.patience = Some(PATIENCE);
        } else if left > wait_ms {
            self.patience = Some(left - wait_ms);
        } else {
            self.patience = None;
            let _ = eprintln!(self.rt; "waiting for bytes of a feed");
        }
    }

    // Says at which address it accepts connections, if that is another than the call asks for.
    fn tell(&self, addr: &str) {
        if let Ok(heard) = self.feeds.heard_at() {
            if let Ok(text) = format!(in self.alloc; "{heard}") {
                if text.as_str() != addr {
                    let _ = eprintln!(self.rt; "listening at {heard}");
                }
            }
        }
    }

    // Whether the path names a regular file.
    fn is_found(&self, path: &str) -> bool {
        fs::metadata(self.rt, path).is_ok_and(|found| found.is_file())
    }

    // The path under which a feed is watched, if it is another than that in the script. An `Err` comes only where memory runs out.
    fn place(&mut self, path: &str) -> Result<Option<String>, AllocError>
        ensures { self.new.feeds ≡ self.old.feeds }
    {
        if path == "tcp" {
            return Ok(None);
        }
        match self.folders.beside(path)? {
            Some(beside) if self.is_found(beside.as_str()) => {
                self.folders.note(beside.as_str(), path);
                Ok(Some(beside))
            }
            _ => Ok(None),
        }
    }
}

impl<'a, R: Net + Files<File = File> + Eprint, P: Poller + Hears> Poller
    for ScriptPoller<'a, R, P> {
    ghost tells = { false };

    ghost state = { λ p. P.state p.feeds };

    fn listen(&mut self, addr: &str) -> Result<(), Failed> {
        match self.feeds.listen(addr) {
            Ok(()) => {
                self.tell(addr);
                Ok(())
            }
            Err(failed) => {
                let said = self.refusal(addr);
                self.miss(Kind::Address, addr, said);
                Err(failed)
            }
        }
    }

    fn watch(&mut self, feed: u32, path: &str) -> Result<(), Failed> {
        let watched = match self.place(path) {
            Ok(Some(beside)) => self.feeds.watch(feed, beside.as_str()),
            Ok(None) => self.feeds.watch(feed, path),
            Err(AllocError) => self.feeds.watch(feed, ""),
        };
        if watched.is_err() {
            let said = self.said(path);
            self.miss(Kind::Feed, path, said);
        }
        watched
    }

    fn is_watched(&self, feed: u32) -> bool {
        self.feeds.is_watched(feed)
    }

    fn poll(&mut self, wait_ms: u32, into: &mut Told) -> Result<(), Failed> {
        let polled = self.feeds.poll(wait_ms, into);
        match polled {
            Ok(()) => self.wait(wait_ms, into),
            Err(Failed) => self.miss(Kind::Poll, "", String::new(self.alloc)),
        }
        polled
    }
}
