// The lists of waiting blocks.
ghost use Rattle.std.specs.Prelude.{◌≡◌, ◌≤◌, ◌<◌, ◌+◌, ◌++◌, ◌∷◌, [], ℕ, true, IfOk, IfSome, None, length, drop, replicate, slice_get, slice_set};
ghost use Rattle.gcd_plan.specs.Limits.{max_blocks};
ghost use Rattle.gcd_lists.specs.ListsView.{list_at, place_of, waits_at, without, span, max_lists};
ghost use Rattle.gcd_lists.specs.Links.{before_in};

use crate::link::Link;
use crate::place::Place;
use gcd_plan::{Blk, MAX_BLOCKS, Obj, Plan};
use std::alloc::{AllocError, Global};
use std::marker::Model;
use std::mem::size_of;

// The bytes that a block takes: two links and a place.
const _: () = prove!(2 * size_of::<Link>() + size_of::<Place>() == 6);

/// What waits on each object of a plan, in order (dispatch_async(3), dispatch_barrier_async(3)). Contracts see it as
/// plain lists (`ListsView`).
///
/// Each block has two links, to the block behind it and to the one before, since it waits at one place at a time.
#[derive(Drop)]
pub struct Lists {
    // By block: the block behind it in its list. Of a block that waits nowhere it says nothing.
    next: Vec<Link>,
    // By block: the block before it in its list. Of the first of a list, and of a block that waits nowhere, it says nothing.
    before: Vec<Link>,
    // By block: the object on which it waits, and whether it is a barrier.
    places: Vec<Place>,
    // By object: the first and the last block of its list. The last of an empty list says nothing.
    heads: Vec<Option<Blk>>,
    lasts: Vec<Blk>,
}

impl Model for Lists {
    ghost use Rattle.gcd_lists.specs.ListsView.{ListsView};
    ghost use Rattle.gcd_lists.specs.Links.{view_of, AreLists};

    ghost Value = { ListsView };

    ghost view = { λ l. view_of l.next.items l.places.items l.heads.items };

    ghost invariant = { λ l. AreLists l.next.items l.before.items l.places.items l.heads.items l.lasts.items };
}

impl Lists {
    // The block before this one in the object's list; None where it is the first.
    fn before_of(&self, node: Obj, blk: Blk) -> Option<Blk>
        requires node { node.0 < length self.now.lists }
        requires waits { waits_at self.now node.0 blk.0 ≡ true }
        ensures { result ≡ before_in blk.0 (list_at self.now node.0) }
    {
        let first = self.heads[node.0 as usize]?;
        if first.0 == blk.0 {
            return None;
        }
        self.before[blk.0 as usize].get()
    }
}

impl Lists {
    /// Lists for the plan's objects and blocks; nothing waits. It takes all the memory that the lists ever need: an `Err`
    /// comes only where memory runs out. (This project's own rule.)
    pub fn new(alloc: Global, plan: &Plan) -> Result<Lists, AllocError>
        ensures { IfOk result (λ l. l ≡ record { lists = replicate (length plan.now.objects) []; blocks = length plan.now.blocks }) }
    {
        Lists::of(alloc, plan.objects(), plan.blocks())
    }

    /// As many lists, for as many blocks, as are asked for; nothing waits. So there may be a list for each block of a plan,
    /// of those that wait for it. It takes all the memory that the lists ever need: an `Err` comes only where memory runs out. (This
    /// project's own rule.)
    pub fn of(alloc: Global, lists: u32, blocks: u32) -> Result<Lists, AllocError>
        requires few_lists { lists ≤ max_lists }
        requires few_blocks { blocks ≤ max_blocks }
        ensures { IfOk result (λ l. l ≡ record { lists = replicate lists []; blocks = blocks }) }
    {
        Ok(Lists {
            next: vec![in alloc; Link::NONE; blocks as usize]?,
            before: vec![in alloc; Link::NONE; blocks as usize]?,
            places: vec![in alloc; Place::NONE; blocks as usize]?,
            heads: vec![in alloc; None; lists as usize]?,
            lasts: vec![in alloc; Blk(0); lists as usize]?,
        })
    }

    /// Copies the lists. The copy takes all its memory at once, so an `Err` comes only if memory runs out.
    pub fn copied(&self, alloc: Global) -> Result<Lists, AllocError>
        ensures { IfOk result (λ l. l ≡ self.now) }
    {
        Ok(Lists {
            next: Vec::from_slice(alloc, &self.next)?,
            before: Vec::from_slice(alloc, &self.before)?,
            places: Vec::from_slice(alloc, &self.places)?,
            heads: Vec::from_slice(alloc, &self.heads)?,
            lasts: Vec::from_slice(alloc, &self.lasts)?,
        })
    }

    /// How many lists there are. (This project's own rule.)
    #[inline(always)]
    pub fn len(&self) -> usize
        ensures { result ≡ length self.now.lists }
    {
        self.heads.len()
    }

    /// The block waits on the object from now on, behind all that wait there, as a barrier or not (dispatch_async(3),
    /// dispatch_barrier_async(3)). It waits nowhere before: [`Lists::place`] is the test. So no more wait there than there
    /// are blocks.
    #[inline(always)]
    pub fn push(&mut self, node: Obj, blk: Blk, barrier: bool)
        requires node { node.0 < length self.old.lists }
        requires blk { blk.0 < self.old.blocks }
        requires waits_nowhere { place_of self.old blk.0 ≡ None }
        ensures behind { self.new ≡ record self.old { lists = slice_set self.old.lists node.0 (list_at self.old node.0 ++ (blk, barrier) ∷ []) } }
        ensures few { length (list_at self.new node.0) ≤ self.new.blocks }
        ensures low { node.0 < max_lists }
    {
        let last = self.lasts[node.0 as usize];
        self.lasts[node.0 as usize] = blk;
        self.places[blk.0 as usize] = Place::of(node, barrier);
        self.next[blk.0 as usize] = Link::NONE;
        match self.heads[node.0 as usize] {
            Some(_) => {
                self.next[last.0 as usize] = Link::of(blk);
                self.before[blk.0 as usize] = Link::of(last);
            }
            None => self.heads[node.0 as usize] = Some(blk),
        }
    }

    /// So many blocks from the first on, which follow each other in their numbers, wait on the object from now on, in the
    /// order of their numbers behind all that wait there, none as a barrier (dispatch_apply(3)). None of them waits
    /// anywhere before. It takes a step for each.
    pub fn push_span(&mut self, node: Obj, first: Blk, count: u32)
        requires node { node.0 < length self.old.lists }
        requires blocks { first.0 + count ≤ self.old.blocks }
        requires wait_nowhere { (b : ℕ) → first.0 ≤ b → b < first.0 + count → place_of self.old b ≡ None }
        ensures behind { self.new ≡ record self.old { lists = slice_set self.old.lists node.0 (list_at self.old node.0 ++ span first.0 count) } }
        ensures low { node.0 < max_lists }
    {
        prove!(self.next.len() <= MAX_BLOCKS as usize);
        for b in first.0..first.0 + count {
            self.push(node, Blk(b), false);
        }
    }

    /// The block that waits first on the object, and whether it is a barrier; None exactly where nothing waits there. No
    /// more wait there than there are blocks. (This project's own rule.)
    pub fn first(&self, node: Obj) -> Option<(Blk, bool)>
        requires { node.0 < length self.now.lists }
        ensures value { result ≡ slice_get (list_at self.now node.0) 0 }
        ensures few { length (list_at self.now node.0) ≤ self.now.blocks }
        ensures within { IfSome result (λ waiting. waiting.0.0 < self.now.blocks) }
    {
        let blk = self.heads[node.0 as usize]?;
        let (_, barrier) = self.places[blk.0 as usize].get()?;
        Some((blk, barrier))
    }

    /// Takes the block that waits first off the object's list, and gives it, with whether it is a barrier; it waits
    /// nowhere afterwards. None exactly where nothing waits there, and then nothing changes. (This project's own rule.)
    #[inline(always)]
    pub fn pop(&mut self, node: Obj) -> Option<(Blk, bool)>
        requires { node.0 < length self.old.lists }
        ensures value { result ≡ slice_get (list_at self.old node.0) 0 }
        ensures rest { self.new ≡ record self.old { lists = slice_set self.old.lists node.0 (drop 1 (list_at self.old node.0)) } }
        ensures gone { IfSome result (λ waiting. place_of self.new waiting.0.0 ≡ None) }
        ensures within { IfSome result (λ waiting. waiting.0.0 < self.old.blocks) }
    {
        let (blk, barrier) = self.first(node)?;
        self.heads[node.0 as usize] = self.next[blk.0 as usize].get();
        self.places[blk.0 as usize] = Place::NONE;
        Some((blk, barrier))
    }

    /// Takes the block off the list of the object on which it waits, wherever it stands there; it waits nowhere afterwards.
    /// [`Lists::place`] is the test. (This project's own rule.)
    pub fn remove(&mut self, node: Obj, blk: Blk)
        requires node { node.0 < length self.old.lists }
        requires waits { waits_at self.old node.0 blk.0 ≡ true }
        ensures rest { self.new ≡ record self.old { lists = slice_set self.old.lists node.0 (without blk.0 (list_at self.old node.0)) } }
        ensures gone { place_of self.new blk.0 ≡ None }
    {
        let at = blk.0 as usize;
        let before = self.before_of(node, blk);
        let behind = self.next[at];
        self.places[at] = Place::NONE;
        let Some(before) = before else {
            self.heads[node.0 as usize] = behind.get();
            return;
        };
        self.next[before.0 as usize] = behind;
        match behind.get() {
            None => self.lasts[node.0 as usize] = before,
            Some(behind) => self.before[behind.0 as usize] = Link::of(before),
        }
    }

    /// The object on which the block waits, and whether it is a barrier there; None exactly where it waits nowhere. (This
    /// project's own rule.)
    pub fn place(&self, blk: Blk) -> Option<(Obj, bool)>
        requires { blk.0 < self.now.blocks }
        ensures { result ≡ place_of self.now blk.0 }
    {
        self.places[blk.0 as usize].get()
    }
}
