// What the plan has: its blocks, runs and sources, and the kinds of its objects.
ghost use Rattle.std.specs.Prelude.{◌≡◌, ◌<◌, length};
ghost use Rattle.gcd_plan.specs.Kinds.{is_node, is_source};
ghost use Rattle.gcd_history.specs.Permitted.{has_block, is_feed, is_run_of};

use super::Registers;
use gcd_plan::{Blk, Obj, Run};

impl Registers {
    /// Whether the plan has the block.
    pub fn has_block(&self, blk: Blk) -> bool
        ensures { result ≡ has_block self.now.plan blk.0 }
    {
        blk.0 < self.plan.blocks()
    }

    /// Whether it is a source of the plan.
    pub fn has_source(&self, src: Obj) -> bool
        ensures { result ≡ is_source self.now.plan src.0 }
    {
        src.0 < self.plan.objects() && self.plan.kind(src).is_source()
    }

    /// Whether it is a read source of the plan.
    pub fn has_feed(&self, src: Obj) -> bool
        ensures { result ≡ is_feed self.now.plan src.0 }
    {
        src.0 < self.plan.objects() && self.plan.kind(src).is_read()
    }

    /// Whether the run is of a block or of a source of the plan.
    pub fn has_run(&self, run: Run) -> bool
        ensures { result ≡ is_run_of self.now.plan run }
    {
        match run {
            Run::Block(blk) => self.has_block(blk),
            Run::Source(src) => self.has_source(src),
        }
    }

    /// Whether the object is a queue or a source.
    pub fn is_node(&self, o: Obj) -> bool
        requires { o.0 < length self.now.plan.objects }
        ensures { result ≡ is_node self.now.plan o.0 }
    {
        self.plan.kind(o).is_node()
    }
}
