// The feeds of the poller over the system, by number.
ghost use Rattle.std.specs.Prelude.{◌≡◌, ◌≢◌, ◌<◌, [], ℕ, Bool, false, true, List, length, IfSome, IfOk, OnErr, OnSome};
ghost use Rattle.std.specs.Option.{option_to_list};
ghost use Rattle.gcd_outer.specs.declared.limits.TheConstants.{MAX_FEEDS};
ghost use Rattle.gcd_system.specs.declared.slots.TheConstants.{BUFFER};
ghost use Rattle.gcd_system.specs.Slots.{is_there, watched_slot, ended_slot, ReadTells};

use crate::slot::{Slot, Source, is_nothing_yet};
use gcd_outer::{MAX_FEEDS, MAX_TELLS, Tell, Told};
use mio::net::{TcpListener, TcpStream};
use mio::{Interest, Registry, Token};
use std::alloc::{AllocError, Global};
use std::io;

// How many bytes one read takes at most.
const BUFFER: usize = 16_384;

#[derive(Drop)]
pub(crate) struct Slots {
    pub(crate) slots: Vec<Slot>,
    buffer: Vec<u8>,
    // The feed that the next reading begins with, so that no feed is always behind the others.
    first: u32,
    ghost all: { length slots.items ≡ MAX_FEEDS },
    ghost room: { length buffer.items ≡ BUFFER },
    ghost within: { first < MAX_FEEDS },
}

fn absent_slots(alloc: Global) -> Result<Vec<Slot>, AllocError>
    ensures all { IfOk result (λ slots. length slots.items ≡ MAX_FEEDS) }
    ensures watched { IfOk result (λ slots. (feed : ℕ) → watched_slot slots.items feed ≡ false) }
    ensures ended { IfOk result (λ slots. (feed : ℕ) → ended_slot slots.items feed ≡ false) }
{
    let mut slots = Vec::with_capacity(alloc, MAX_FEEDS as usize)?;
    for _ in 0..MAX_FEEDS {
        slots.push(Slot::absent())?;
    }
    Ok(slots)
}

impl Slots {
    // No feed is watched.
    pub(crate) fn new(alloc: Global) -> Result<Self, AllocError>
        ensures watched { IfOk result (λ s. (feed : ℕ) → watched_slot s.slots.items feed ≡ false) }
        ensures ended { IfOk result (λ s. (feed : ℕ) → ended_slot s.slots.items feed ≡ false) }
    {
        Ok(Slots {
            slots: absent_slots(alloc)?,
            buffer: Vec::from_elem(alloc, 0, BUFFER)?,
            first: 0,
        })
    }

    pub(crate) fn is_watched(&self, feed: u32) -> bool
        ensures { result ≡ watched_slot self.now.slots.items feed }
    {
        match self.slots.get(feed as usize) {
            Some(slot) => slot.is_there(),
            None => false,
        }
    }

    // The connection that a feed is read from; None where it has none.
    pub(crate) fn connection(&self, feed: u32) -> Option<&TcpStream>
        ensures { OnSome result (watched_slot self.now.slots.items feed ≡ true) }
    {
        self.slots.get(feed as usize)?.connection()
    }

    // The feed is read from this source from now on, and has not ended.
    pub(crate) fn begin(&mut self, feed: u32, source: Source)
        requires { feed < MAX_FEEDS }
        ensures watched { watched_slot self.new.slots.items feed ≡ is_there source }
        ensures ended { ended_slot self.new.slots.items feed ≡ false }
        ensures others { (other : ℕ) → other ≢ feed
            → watched_slot self.new.slots.items other ≡ watched_slot self.old.slots.items other }
        ensures others_ended { (other : ℕ) → other ≢ feed
            → ended_slot self.new.slots.items other ≡ ended_slot self.old.slots.items other }
    {
        self.slots[feed as usize] = Slot {
            source,
            ended: false,
        };
    }

    // Reads the next feed, if it is live.
    fn read_next(&mut self) -> io::Result<Option<Tell>>
        ensures ok { IfOk result (λ tell. ReadTells self.old.slots.items self.new.slots.items (option_to_list tell)) }
        ensures err { OnErr result (ReadTells self.old.slots.items self.new.slots.items []) }
    {
        let feed = self.first;
        self.first = if feed + 1 < MAX_FEEDS { feed + 1 } else { 0 };
        self.slots[feed as usize].read(feed, &mut self.buffer)
    }

    // Reads each live feed once, until `MAX_TELLS` tells are there or a read fails. What came before a read that
    // failed is told all the same.
    pub(crate) fn read_all(&mut self, told: &mut Told) -> io::Result<()>
        requires { told.old ≡ [] }
        ensures { ReadTells self.old.slots.items self.new.slots.items told.new }
    {
        for _ in 0..MAX_FEEDS {
            if told.len() >= MAX_TELLS {
                break;
            }
            if let Some(tell) = self.read_next()? {
                told.push(tell);
            }
        }
        Ok(())
    }

    // The feed that has waited longest for a connection.
    fn next_waiting(&self) -> Option<u32>
        ensures within { IfSome result (λ feed. feed < MAX_FEEDS) }
        ensures watched { IfSome result (λ feed. watched_slot self.now.slots.items feed ≡ true) }
    {
        let mut found = None;
        let mut least = u64::MAX;
        for (feed, slot) in self.slots.iter().enumerate() {
            if let Some(place) = slot.waiting_place()
                && (found.is_none() || place < least)
            {
                found = Some(feed as u32);
                least = place;
            }
        }
        found
    }

    // The feeds that wait for a connection take those that have come, in the order of their watches.
    pub(crate) fn accept(&mut self, listener: &TcpListener, registry: &Registry) -> io::Result<()>
        ensures { ReadTells self.old.slots.items self.new.slots.items [] }
    {
        for _ in 0..MAX_FEEDS {
            let Some(feed) = self.next_waiting() else {
                break;
            };
            let mut stream = match listener.accept() {
                Ok((stream, _)) => stream,
                Err(error) if is_nothing_yet(error.kind()) => break,
                Err(error) => return Err(error),
            };
            registry.register(&mut stream, Token(feed as usize), Interest::READABLE)?;
            self.slots[feed as usize].source = Source::Stream(stream);
        }
        Ok(())
    }
}
