// The sources.
ghost use Rattle.std.specs.Prelude.{◌≡◌, ◌<◌, ◌^◌, IfOk, false, length};
ghost use Rattle.gcd_plan.specs.KindValues.{folded};
ghost use Rattle.gcd_source.specs.SourcesView.{sources_of, pending_at, is_cancelled_at, is_replace_at, merged_at, with_pending, with_cancelled};

use gcd_plan::{Kind, Obj, Plan};
use std::alloc::{AllocError, Global};
use std::marker::Model;

/// What is pending at each source of a plan, and which are cancelled (dispatch_source_create(3)). Contracts see it as plain
/// lists by object (`SourcesView`).
#[derive(Drop)]
pub struct Sources {
    kinds: Vec<Kind>,
    pending: Vec<u64>,
    cancelled: Vec<bool>,
}

impl Model for Sources {
    ghost use Rattle.gcd_source.specs.SourcesView.{SourcesView, AreAsMany};

    ghost Value = { SourcesView };

    ghost view = { λ s. record { kinds = s.kinds.items; pending = s.pending.items; cancelled = s.cancelled.items } };

    ghost invariant = { λ s. AreAsMany (record { kinds = s.kinds.items; pending = s.pending.items; cancelled = s.cancelled.items }) };
}

// Two values in one, at a source of this kind.
fn joined(kind: Kind, a: u64, b: u64) -> u64
    requires { folded kind a b < 2 ^ 64 }
    ensures { result ≡ folded kind a b }
{
    kind.folded(u128::from(a), u128::from(b)) as u64
}

impl Sources {
    /// The plan's sources before the first event: nothing is pending, and none is cancelled (dispatch_source_create(3)). It
    /// takes all the memory that the sources ever need: an `Err` comes only where memory runs out.
    pub fn new(alloc: Global, plan: &Plan) -> Result<Sources, AllocError>
        ensures { IfOk result (λ s. s ≡ sources_of plan.now) }
    {
        Ok(Sources {
            kinds: plan.kinds(alloc)?,
            pending: vec![in alloc; 0; plan.objects() as usize]?,
            cancelled: vec![in alloc; false; plan.objects() as usize]?,
        })
    }

    /// Copies the sources. The copy takes all its memory at once, so an `Err` comes only if memory runs out.
    pub fn copied(&self, alloc: Global) -> Result<Sources, AllocError>
        ensures { IfOk result (λ s. s ≡ self.now) }
    {
        Ok(Sources {
            kinds: Vec::from_slice(alloc, &self.kinds)?,
            pending: Vec::from_slice(alloc, &self.pending)?,
            cancelled: Vec::from_slice(alloc, &self.cancelled)?,
        })
    }

    /// What is pending at the source: all that was merged since the last taking (dispatch_source_get_data(3)).
    pub fn pending(&self, s: Obj) -> u64
        requires { s.0 < length self.now.kinds }
        ensures { result ≡ pending_at self.now s.0 }
    {
        self.pending[s.0 as usize]
    }

    /// Whether the source is cancelled (dispatch_source_testcancel(3)).
    pub fn is_cancelled(&self, s: Obj) -> bool
        requires { s.0 < length self.now.kinds }
        ensures { result ≡ is_cancelled_at self.now s.0 }
    {
        self.cancelled[s.0 as usize]
    }

    /// Joins the value to what is pending at the source: bit by bit at an or source, in its place at a replace source, and else
    /// by addition, whose sum stays below 2^64; a merge of 0 changes nothing, but at a replace source, where nothing is pending
    /// then (dispatch_source_merge_data(3)). [`Sources::pending`] is the test.
    pub fn merge(&mut self, s: Obj, v: u64)
        requires source { s.0 < length self.old.kinds }
        requires room { merged_at self.old s.0 v < 2 ^ 64 }
        ensures joined { self.new ≡ with_pending self.old s.0 (merged_at self.old s.0 v) }
        ensures nothing { is_replace_at self.old s.0 ≡ false → v ≡ 0 → self.new ≡ self.old }
    {
        self.fold_in(s, v);
    }

    // Folds the value into what is pending at the source.
    fn fold_in(&mut self, s: Obj, v: u64)
        requires source { s.0 < length self.old.kinds }
        requires room { merged_at self.old s.0 v < 2 ^ 64 }
        ensures { self.new ≡ with_pending self.old s.0 (merged_at self.old s.0 v) }
    {
        let at = s.0 as usize;
        self.pending[at] = joined(self.kinds[at], self.pending[at], v);
    }

    /// Takes what is pending at the source, and gives it; nothing is pending afterwards (dispatch_source_get_data(3)).
    pub fn take(&mut self, s: Obj) -> u64
        requires { s.0 < length self.old.kinds }
        ensures value { result ≡ pending_at self.old s.0 }
        ensures nothing_left { self.new ≡ with_pending self.old s.0 0 }
    {
        let value = self.pending[s.0 as usize];
        self.pending[s.0 as usize] = 0;
        value
    }

    /// The source is cancelled from now on; nothing changes where it is already. What is pending stays so
    /// (dispatch_source_cancel(3)).
    pub fn cancel(&mut self, s: Obj)
        requires { s.0 < length self.old.kinds }
        ensures { self.new ≡ with_cancelled self.old s.0 }
    {
        self.cancelled[s.0 as usize] = true;
    }
}
