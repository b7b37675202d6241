// The times.
ghost use Rattle.std.specs.Prelude.{◌≡◌, ◌<◌, None, Some, IfOk, IfSome, is_some, length, replicate, slice_get, slice_index_or, slice_set};
ghost use Rattle.gcd_sets.specs.Least.{no_time, time_at, least};

use crate::tree::{lesser_child, lift};
use std::alloc::{AllocError, Global};
use std::marker::Model;

// What stands for no time: it is past all times.
const NO_TIME: u32 = u32::MAX;

/// A time, or none, for each number below a length, and the least of them. Contracts see it as a list.
///
/// It is a tree in one array: a node below `len` is the lesser of its two children, and the nodes from `len` on are the
/// times.
#[derive(Drop)]
pub struct Times {
    // Twice as many as there are numbers. The children of node i are 2 * i and 2 * i + 1; node 0 says nothing.
    nodes: Vec<u32>,
    len: u32,
}

impl Model for Times {
    ghost use Rattle.std.specs.Prelude.{List, Option, ℕ};
    ghost use Rattle.gcd_sets.specs.Tree.{times_of, IsTree};

    ghost Value = { List (Option ℕ) };

    ghost view = { λ t. times_of t.nodes.items t.len };

    ghost invariant = { λ t. IsTree t.nodes.items t.len };
}

// The time that a node of the tree stands for.
fn time_at(node: u32) -> Option<u32>
    ensures { result ≡ time_at node }
{
    if node < NO_TIME { Some(node) } else { None }
}

impl Times {
    // Writes the node of a number, and those above it.
    fn put(&mut self, i: u32, node: u32)
        requires { i < length self.old }
        ensures { self.new ≡ slice_set self.old i (time_at node) }
    {
        let len = self.len as usize;
        let at = len + i as usize;
        self.nodes[at] = node;
        lift(&mut self.nodes, len, at / 2);
    }
}

impl Times {
    /// No time yet, for each number below `len`, which may be 0. It takes all the memory that the times ever need: an `Err`
    /// comes only where memory runs out.
    pub fn new(alloc: Global, len: u32) -> Result<Times, AllocError>
        ensures { IfOk result (λ t. t ≡ replicate len None) }
    {
        Ok(Times {
            nodes: vec![in alloc; NO_TIME; 2 * len as usize]?,
            len,
        })
    }

    /// Copies the times. The copy takes all its memory at once, so an `Err` comes only if memory runs out.
    pub fn copied(&self, alloc: Global) -> Result<Times, AllocError>
        ensures { IfOk result (λ t. t ≡ self.now) }
    {
        Ok(Times {
            nodes: Vec::from_slice(alloc, &self.nodes)?,
            len: self.len,
        })
    }

    /// The length that it was made with: its numbers are below it.
    pub fn len(&self) -> u32
        ensures { result ≡ length self.now }
    {
        self.len
    }

    /// The time of the number; None exactly where it has none.
    pub fn get(&self, i: u32) -> Option<u32>
        requires { i < length self.now }
        ensures { result ≡ slice_index_or self.now i None }
    {
        time_at(self.nodes[self.len as usize + i as usize])
    }

    /// The least of all times; None exactly where no number has one. It takes the same time whatever the length.
    pub fn least(&self) -> Option<u32>
        ensures { result ≡ least self.now }
    {
        if self.len == 0 {
            return None;
        }
        time_at(self.nodes[1])
    }

    /// A number whose time is the least, any one where there are several; None exactly where no number has a time. It takes
    /// a step for each doubling of the length.
    pub fn soonest(&self) -> Option<u32>
        ensures some { is_some result ≡ is_some (least self.now) }
        ensures within { IfSome result (λ i. i < length self.now) }
        ensures there { IfSome result (λ i. slice_get self.now i ≡ Some (least self.now)) }
    {
        self.least()?;
        let len = self.len as usize;
        let mut at = 1;
        while at < len {
            at = lesser_child(&self.nodes, len, at);
        }
        Some((at - len) as u32)
    }

    /// The number has this time from now on, whatever it had before. It takes a step for each doubling of the length at most.
    pub fn set(&mut self, i: u32, time: u32)
        requires within { i < length self.old }
        requires short { time < no_time }
        ensures { self.new ≡ slice_set self.old i (Some time) }
    {
        self.put(i, time);
    }

    /// The number has no time from now on; nothing changes where it had none. It takes a step for each doubling of the length
    /// at most, and the same time whatever the length where it had none.
    pub fn clear(&mut self, i: u32)
        requires { i < length self.old }
        ensures { self.new ≡ slice_set self.old i None }
    {
        self.put(i, NO_TIME);
    }
}
