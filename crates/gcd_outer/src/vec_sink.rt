// A sink in memory, which tells what it took.
ghost use Rattle.std.specs.Prelude.{◌≡◌, ◌≤◌, ◌<◌, ◌++◌, ◌∷◌, [], true, vec_capacity, IfOk, OnOk, OnErr};

use crate::calls::Calls;
use crate::sink::{Failed, Sink};
use std::alloc::{AllocError, Global};

/// A sink in memory with room for a stated number of bytes. It tells what it took. It fails just in the
/// writes that `fail` names and in one that would pass its room, and takes nothing then.
#[derive(Drop)]
pub struct VecSink {
    bytes: Vec<u8>,
    room: usize,
    most: usize,
    writes: Calls,
    faults: u64,
    ghost takes_some: { 0 < most },
    ghost reserved: { room ≤ vec_capacity bytes },
}

impl VecSink {
    ghost use Rattle.gcd_outer.specs.InMemory.{failing_writes, writes_of, room_of, most_of, sink_state};

    /// An empty sink, which was not written to yet, with room for `room` bytes, which takes at most `most` of them at a write.
    pub fn new(alloc: Global, room: usize, most: usize) -> Result<Self, AllocError>
        requires { 0 < most }
        ensures empty { IfOk result (λ s. (sink_state s).taken ≡ []) }
        ensures faults { IfOk result (λ s. (sink_state s).faults ≡ 0) }
        ensures writes { IfOk result (λ s. writes_of s ≡ 0) }
        ensures room { IfOk result (λ s. room_of s ≡ room) }
        ensures most { IfOk result (λ s. most_of s ≡ most) }
        ensures failing { IfOk result (λ s. failing_writes s ≡ []) }
    {
        Ok(VecSink {
            bytes: Vec::with_capacity(alloc, room)?,
            room,
            most,
            writes: Calls::new(alloc),
            faults: 0,
        })
    }

    /// The write of this number, counted from 0, is to fail; nothing else changes. Being out of memory leaves
    /// the sink as it was.
    pub fn fail(&mut self, write: u64) -> Result<(), AllocError>
        ensures taken { (sink_state self.new).taken ≡ (sink_state self.old).taken }
        ensures faults { (sink_state self.new).faults ≡ (sink_state self.old).faults }
        ensures writes { writes_of self.new ≡ writes_of self.old }
        ensures room { room_of self.new ≡ room_of self.old }
        ensures most { most_of self.new ≡ most_of self.old }
        ensures ok { OnOk result (failing_writes self.new ≡ failing_writes self.old ++ write ∷ []) }
        ensures wanting { OnErr result (failing_writes self.new ≡ failing_writes self.old) }
    {
        self.writes.fail(write)
    }

    /// All that it took, in order.
    pub fn bytes(&self) -> &[u8]
        ensures { result.now ≡ (sink_state self.now).taken }
    {
        &self.bytes
    }
}

impl Sink for VecSink {
    ghost use Rattle.std.specs.Prelude.{◌≡◌, ◌≤◌, ◌<◌, ◌++◌, ◌⊎◌, true, length, take, min, Contains, IsErr, IfOk, OnOk, OnErr};
    ghost use Rattle.gcd_outer.specs.InMemory.{IsPastRoom, failing_writes, writes_of, room_of, most_of, sink_state};
    ghost use Rattle.gcd_outer.specs.Outside.{Rises, next_count};

    ghost tells = { true };

    ghost state = { sink_state };

    // What each sink promises, and then: it takes as much as it may at once, and fails just where that
    // is planned or would pass its room.
    fn write(&mut self, piece: &[u8]) -> Result<usize, Failed>
        ensures some { 0 < length piece.now → IfOk result (λ n. 0 < n) }
        ensures within { IfOk result (λ n. n ≤ length piece.now) }
        ensures taken { IfOk result (λ n. (sink_state self.new).taken ≡ (sink_state self.old).taken ++ take n piece.now) }
        ensures nothing { OnErr result ((sink_state self.new).taken ≡ (sink_state self.old).taken) }
        ensures failed { OnErr result (Rises (sink_state self.old).faults (sink_state self.new).faults) }
        ensures faults { (sink_state self.old).faults ≤ (sink_state self.new).faults }

        ensures count { IfOk result (λ n. n ≡ min (length piece.now) (most_of self.old)) }
        ensures no_fault { OnOk result ((sink_state self.new).faults ≡ (sink_state self.old).faults) }
        ensures one_fault { OnErr result ((sink_state self.new).faults ≡ next_count (sink_state self.old).faults) }
        ensures room { OnOk result (length (sink_state self.new).taken ≤ room_of self.old) }
        ensures planned { Contains (failing_writes self.old) (writes_of self.old) → IsErr result }
        ensures only_so { OnErr result (Contains (failing_writes self.old) (writes_of self.old)
            ⊎ IsPastRoom self.old (length piece.now)) }
        ensures writes { writes_of self.new ≡ next_count (writes_of self.old) }
        ensures same_room { room_of self.new ≡ room_of self.old }
        ensures same_most { most_of self.new ≡ most_of self.old }
        ensures failing { failing_writes self.new ≡ failing_writes self.old }
    {
        let count = piece.len().min(self.most);
        let planned = self.writes.next();
        let past_room = self.bytes.len().saturating_add(count) > self.room;
        if planned || past_room || self.bytes.extend_from_slice(&piece[..count]).is_err() {
            self.faults = self.faults.saturating_add(1);
            return Err(Failed);
        }
        Ok(count)
    }
}
