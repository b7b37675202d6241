// A poller of regular files and of TCP connections.
ghost use Rattle.std.specs.Prelude.{◌≡◌, [], ℕ, true, false, codes, IfOk, IsErr, OnSome};
ghost use Rattle.gcd_system.specs.Listening.{is_listening};
ghost use Rattle.gcd_system.specs.Slots.{is_there, watched_slot, ended_slot, ReadTells};

use crate::slot::Source;
use crate::slots::Slots;
use gcd_outer::{Failed, MAX_FEEDS, Poller, Told};
use mio::net::{TcpListener, TcpStream};
use mio::{Events, Interest, Poll, Token};
use std::alloc::{AllocError, Global};
use std::fs::File;
use std::io::ErrorKind;
use std::net::{Net, SocketAddr};
use std::rt::Files;
use std::time::Duration;
use std::{fs, io};

/// A poller over the system. It tells nothing.
///
/// A feed with the path `tcp` takes the next connection that is accepted at the address of the last
/// `listen`, in the order of the watches; without a listen its watch fails. Every other path names a
/// regular file, which is read from its start to its end; a file of the name `tcp` is `./tcp`. The feed
/// of a file ends at the end of the file, and the feed of a connection where the other side closes it.
/// An address is an IP address and a port, such as `127.0.0.1:8080`; a host's name is not looked up,
/// since that would wait for others.
///
/// Whatever fails in the system is counted as a fault: a missing file, an address that can't be bound,
/// a connection that is reset. Where a poll fails after bytes were read, it answers these, and the next
/// poll answers the failure, so that nothing that was read is lost.
#[derive(Drop)]
pub struct NetPoller<'a, R: Net + Files<File = File>> {
    rt: &'a R,
    // What waits for the system: opened at the first listen or watch.
    poll: Option<Poll>,
    events: Events<Global>,
    listener: Option<TcpListener>,
    slots: Slots,
    // The place of the next feed that waits for a connection.
    place: u64,
    // Whether a poll failed after bytes were read, which the next poll answers.
    owed: bool,
    faults: u64,
}

impl<'a, R: Net + Files<File = File>> NetPoller<'a, R> {
    /// A poller that watches no feed. It asks the system for nothing yet: an error is out of memory.
    pub fn new(rt: &'a R, alloc: Global) -> Result<Self, AllocError>
        ensures watched { IfOk result (λ p. (feed : ℕ)
            → (⟦<NetPoller<'a, R> as Poller>⟧.state p).watched feed ≡ false) }
        ensures ended { IfOk result (λ p. (feed : ℕ)
            → (⟦<NetPoller<'a, R> as Poller>⟧.state p).ended feed ≡ false) }
        ensures faults { IfOk result (λ p. (⟦<NetPoller<'a, R> as Poller>⟧.state p).faults ≡ 0) }
        ensures listening { IfOk result (λ p. is_listening p ≡ false) }
    {
        Ok(NetPoller {
            rt,
            poll: None,
            events: Events::with_capacity(alloc, 64)?,
            listener: None,
            slots: Slots::new(alloc)?,
            place: 0,
            owed: false,
            faults: 0,
        })
    }

    /// The address at which connections are accepted. An error is the system's, or that there was no
    /// listen that succeeded.
    pub fn local_addr(&self) -> io::Result<SocketAddr>
        ensures { is_listening self.now ≡ false → IsErr result }
    {
        match &self.listener {
            Some(listener) => listener.local_addr(),
            None => Err(io::Error::from(ErrorKind::NotConnected)),
        }
    }

    /// How often it has failed.
    pub fn faults(&self) -> u64
        ensures { result ≡ (⟦<NetPoller<'a, R> as Poller>⟧.state self.now).faults }
    {
        self.faults
    }

    /// The connection that a feed is read from; None where the feed has none. The poller itself writes nothing to it.
    pub fn connection(&self, feed: u32) -> Option<&TcpStream>
        ensures { OnSome result ((⟦<NetPoller<'a, R> as Poller>⟧.state self.now).watched feed ≡ true) }
    {
        self.slots.connection(feed)
    }

    // Opens what waits for the system, where it is not open.
    fn open(&mut self) -> io::Result<()>
        ensures slots { self.new.slots ≡ self.old.slots }
        ensures listener { self.new.listener ≡ self.old.listener }
        ensures faults { self.new.faults ≡ self.old.faults }
    {
        if self.poll.is_none() {
            self.poll = Some(Poll::new(self.rt)?);
        }
        Ok(())
    }

    // A listener at the address.
    fn bind(&mut self, addr: &str) -> io::Result<TcpListener>
        ensures slots { self.new.slots ≡ self.old.slots }
        ensures listener { self.new.listener ≡ self.old.listener }
        ensures faults { self.new.faults ≡ self.old.faults }
    {
        let Ok(addr) = addr.parse::<SocketAddr>() else {
            return Err(io::Error::from(ErrorKind::InvalidInput));
        };
        self.open()?;
        let mut listener = TcpListener::bind(self.rt, addr)?;
        if let Some(poll) = &self.poll {
            let token = Token(MAX_FEEDS as usize);
            poll.registry()
                .register(&mut listener, token, Interest::READABLE)?;
        }
        Ok(listener)
    }

    // What a feed with this path is read from.
    fn source(&self, path: &str) -> io::Result<Source>
        ensures there { IfOk result (λ source. is_there source ≡ true) }
        ensures unheard { path.now ≡ codes "tcp" → is_listening self.now ≡ false → IsErr result }
    {
        if path == "tcp" {
            return match self.listener {
                Some(_) => Ok(Source::Waiting(self.place)),
                None => Err(io::Error::from(ErrorKind::NotConnected)),
            };
        }
        if !fs::metadata(self.rt, path)?.is_file() {
            return Err(io::Error::from(ErrorKind::InvalidInput));
        }
        Ok(Source::Regular(fs::open(self.rt, path)?))
    }

    // The feeds that wait for a connection take those that have come.
    fn accept(&mut self) -> io::Result<()>
        ensures told { ReadTells self.old.slots.slots.items self.new.slots.slots.items [] }
        ensures faults { self.new.faults ≡ self.old.faults }
    {
        let Some(poll) = &self.poll else {
            return Ok(());
        };
        match &self.listener {
            Some(listener) => self.slots.accept(listener, poll.registry()),
            None => Ok(()),
        }
    }

    // Accepts the connections that have come, and reads what has come, without waiting.
    fn read(&mut self, told: &mut Told) -> io::Result<()>
        requires { told.old ≡ [] }
        ensures told { ReadTells self.old.slots.slots.items self.new.slots.slots.items told.new }
        ensures faults { self.new.faults ≡ self.old.faults }
    {
        self.accept()?;
        self.slots.read_all(told)
    }

    // Waits until something has come, or for so many milliseconds.
    fn wait(&mut self, wait_ms: u32) -> io::Result<()>
        ensures slots { self.new.slots ≡ self.old.slots }
        ensures faults { self.new.faults ≡ self.old.faults }
    {
        let wait = Duration::from_millis(u64::from(wait_ms));
        match &mut self.poll {
            Some(poll) => poll.poll(&mut self.events, Some(wait)),
            None => Ok(()),
        }
    }

    // Reads what has come, after a wait where nothing had.
    fn gather(&mut self, wait_ms: u32, told: &mut Told) -> io::Result<()>
        requires { told.old ≡ [] }
        ensures told { ReadTells self.old.slots.slots.items self.new.slots.slots.items told.new }
        ensures faults { self.new.faults ≡ self.old.faults }
    {
        self.read(told)?;
        if told.is_empty() {
            self.wait(wait_ms)?;
            self.read(told)?;
        }
        Ok(())
    }
}

impl<'a, R: Net + Files<File = File>> Poller for NetPoller<'a, R> {
    ghost use Rattle.std.specs.Prelude.{◌≢◌, ◌≤◌, ◌<◌, IsErr, OnOk, OnErr};
    ghost use Rattle.gcd_outer.specs.declared.limits.TheConstants.{MAX_FEEDS};
    ghost use Rattle.gcd_outer.specs.Outside.{Rises};
    ghost use Rattle.gcd_system.specs.Slots.{silent_state};

    ghost tells = { false };

    ghost state = { λ p. silent_state p.slots.slots.items p.faults };

    // What each poller promises, and then: it accepts connections just where a listen has succeeded.
    fn listen(&mut self, addr: &str) -> Result<(), Failed>
        ensures watched { (feed : ℕ) → watched_slot self.new.slots.slots.items feed ≡ watched_slot self.old.slots.slots.items feed }
        ensures ended { (feed : ℕ) → ended_slot self.new.slots.slots.items feed ≡ ended_slot self.old.slots.slots.items feed }
        ensures ok { OnOk result (self.new.faults ≡ self.old.faults) }
        ensures failed { OnErr result (Rises self.old.faults self.new.faults) }
        ensures faults { self.old.faults ≤ self.new.faults }

        ensures listening { OnOk result (is_listening self.new ≡ true) }
        ensures as_before { OnErr result (is_listening self.new ≡ is_listening self.old) }
    {
        match self.bind(addr) {
            Ok(listener) => {
                self.listener = Some(listener);
                Ok(())
            }
            Err(_) => {
                self.faults = self.faults.saturating_add(1);
                Err(Failed)
            }
        }
    }

    // What each poller promises, and then: a feed with the path `tcp` is refused before a listen.
    fn watch(&mut self, feed: u32, path: &str) -> Result<(), Failed>
        requires { feed < MAX_FEEDS }
        ensures watches_it { OnOk result (watched_slot self.new.slots.slots.items feed ≡ true) }
        ensures begins { OnOk result (ended_slot self.new.slots.slots.items feed ≡ false) }
        ensures others { (other : ℕ) → other ≢ feed
            → watched_slot self.new.slots.slots.items other ≡ watched_slot self.old.slots.slots.items other }
        ensures others_ended { (other : ℕ) → other ≢ feed
            → ended_slot self.new.slots.slots.items other ≡ ended_slot self.old.slots.slots.items other }
        ensures unwatched { OnErr result ((other : ℕ)
            → watched_slot self.new.slots.slots.items other ≡ watched_slot self.old.slots.slots.items other) }
        ensures unended { OnErr result ((other : ℕ)
            → ended_slot self.new.slots.slots.items other ≡ ended_slot self.old.slots.slots.items other) }
        ensures ok { OnOk result (self.new.faults ≡ self.old.faults) }
        ensures failed { OnErr result (Rises self.old.faults self.new.faults) }
        ensures faults { self.old.faults ≤ self.new.faults }

        ensures unheard { path.now ≡ codes "tcp" → is_listening self.old ≡ false → IsErr result }
        ensures listening { is_listening self.new ≡ is_listening self.old }
    {
        let source = match self.open() {
            Ok(()) => self.source(path),
            Err(error) => Err(error),
        };
        match source {
            Ok(source) => {
                self.slots.begin(feed, source);
                self.place = self.place.saturating_add(1);
                Ok(())
            }
            Err(_) => {
                self.faults = self.faults.saturating_add(1);
                Err(Failed)
            }
        }
    }

    fn is_watched(&self, feed: u32) -> bool {
        self.slots.is_watched(feed)
    }

    fn poll(&mut self, wait_ms: u32, into: &mut Told) -> Result<(), Failed> {
        if !self.owed {
            let mut told = Told::new();
            let failed = self.gather(wait_ms, &mut told).is_err();
            if !failed || !told.is_empty() {
                self.owed = failed;
                into.copy_from(&told);
                return Ok(());
            }
        }
        self.owed = false;
        self.faults = self.faults.saturating_add(1);
        Err(Failed)
    }
}
