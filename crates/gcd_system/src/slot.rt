// One feed of the poller over the system.
ghost use Rattle.std.specs.Prelude.{◌≡◌, ◌<◌, ◌≤◌, true, false, length, OnSome, IfOk, OnErr};
ghost use Rattle.gcd_outer.specs.declared.limits.TheConstants.{MAX_TELL_BYTES};
ghost use Rattle.gcd_system.specs.Slots.{is_there, SlotTells};

use gcd_outer::Tell;
use mio::net::TcpStream;
use std::fs::File;
use std::io;
use std::io::{ErrorKind, Read};

// What a feed is read from.
#[derive(Drop)]
pub(crate) enum Source {
    // The feed is not watched.
    Absent,
    // It waits for a connection; those with a lower number came before it.
    Waiting(u64),
    Stream(TcpStream),
    Regular(File),
}

#[derive(Drop)]
pub(crate) struct Slot {
    pub(crate) source: Source,
    pub(crate) ended: bool,
}

impl Slot {
    // A feed that is not watched.
    pub(crate) fn absent() -> Self
        ensures absent { result.source ≡ Source.Absent }
        ensures ended { result.ended ≡ false }
    {
        Slot {
            source: Source::Absent,
            ended: false,
        }
    }

    pub(crate) fn is_there(&self) -> bool
        ensures { result ≡ is_there self.now.source }
    {
        !matches!(self.source, Source::Absent)
    }

    // Its place among those that wait for a connection.
    pub(crate) fn waiting_place(&self) -> Option<u64>
        ensures { OnSome result (is_there self.now.source ≡ true) }
    {
        match self.source {
            Source::Waiting(place) => Some(place),
            Source::Absent | Source::Stream(_) | Source::Regular(_) => None,
        }
    }

    // The connection that it is read from; None where it has none.
    pub(crate) fn connection(&self) -> Option<&TcpStream>
        ensures { OnSome result (is_there self.now.source ≡ true) }
    {
        match &self.source {
            Source::Stream(stream) => Some(stream),
            Source::Absent | Source::Waiting(_) | Source::Regular(_) => None,
        }
    }

    // Reads once, without waiting. Nothing is told where nothing has come.
    pub(crate) fn read(&mut self, feed: u32, buffer: &mut [u8]) -> io::Result<Option<Tell>>
        requires some { 0 < length buffer.old }
        requires small { length buffer.old ≤ MAX_TELL_BYTES }
        ensures source { is_there self.new.source ≡ is_there self.old.source }
        ensures tells { IfOk result (SlotTells feed self.old self.new) }
        ensures err { OnErr result (self.new.ended ≡ self.old.ended) }
    {
        if self.ended {
            return Ok(None);
        }
        let got = match &mut self.source {
            Source::Absent | Source::Waiting(_) => return Ok(None),
            Source::Stream(stream) => stream.read(buffer),
            Source::Regular(file) => file.read(buffer),
        };
        match got {
            Ok(count) => {
                let ended = count == 0;
                self.ended = ended;
                Ok(Some(Tell {
                    feed,
                    bytes: count as u32,
                    ended,
                }))
            }
            Err(error) if is_nothing_yet(error.kind()) => Ok(None),
            Err(error) => Err(error),
        }
    }
}

// Whether an error says that nothing has come, or that a signal came first.
pub(crate) fn is_nothing_yet(kind: ErrorKind) -> bool {
    kind == ErrorKind::WouldBlock || kind == ErrorKind::Interrupted
}
