// The blocks of a strip, which one act submits.
ghost use Rattle.std.specs.Prelude.{◌≡◌, ◌+◌, ◌≤◌, ◌<◌, ◌^◌, fold, length, option_map, slice_get};
ghost use Rattle.std.specs.List.{range_with_len};
ghost use Rattle.gcd_machine.specs.Steps.{noted_on, span_submitted, strip_submitted};
ghost use Rattle.gcd_machine.specs.Conditions.{CanSubmitSpan, CanSubmitStrip};

use super::Registers;
use super::cell::BlockCell;
use gcd_plan::{Blk, Obj};

// The blocks of the span are noted as submitted on the node, and not as barriers.
fn note_span(blocks: &mut Vec<BlockCell>, node: Obj, first: u32, count: u32)
    requires within { first + count ≤ length blocks.old.items }
    requires short { first + count < 2 ^ 32 }
    requires node { node.0 < 65535 }
    ensures { blocks.new.items ≡ fold (noted_on node) blocks.old.items (range_with_len first count) }
{
    for b in first..first + count {
        blocks[b as usize].submit(node, false);
    }
}

impl Registers {
    // The blocks of the strip wait on the node behind all others, in the order of their numbers (dispatch_apply(3)). It costs a step
    // for each block.
    pub fn submit_strip(&mut self, node: Obj, a: u32)
        requires { CanSubmitStrip self.old node a }
        ensures { self.new ≡ strip_submitted self.old node a }
    {
        match self.strip_span(a) {
            Some((first, count)) => self.submit_span(node, first, count),
            None => {}
        }
    }

    // The first block of the strip, and how many it has.
    fn strip_span(&self, a: u32) -> Option<(u32, u32)>
        ensures { result ≡ option_map (λ s. (s.first, s.count)) (slice_get self.now.plan.strips a) }
    {
        match self.plan.strips().get(a as usize) {
            Some(strip) => Some((strip.first, strip.count)),
            None => None,
        }
    }

    // So many blocks from the first on wait on the node behind all others, in the order of their numbers.
    fn submit_span(&mut self, node: Obj, first: u32, count: u32)
        requires { CanSubmitSpan self.old node first count }
        ensures { self.new ≡ span_submitted self.old node first count }
    {
        self.lists.push_span(node, Blk(first), count);
        note_span(&mut self.blocks, node, first, count);
        self.left += count;
        if count > 0 {
            self.busy.set(node.0);
        }
    }
}
