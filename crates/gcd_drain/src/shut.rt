// Whether the chain of a node is shut, each object looked at once.
ghost use Rattle.std.specs.Prelude.{◌≡◌, ◌<◌, ◌||◌, not, length};
ghost use Rattle.gcd_drain.specs.Rule.{is_free_by, excludes_at};
ghost use Rattle.gcd_drain.specs.Shut.{is_shut_by, AreSound};

use crate::drains::Drains;
use crate::free::is_free;
use crate::known_chains::KnownChains;
use gcd_hold::Holds;
use gcd_plan::Obj;
use gcd_tree::Tree;

impl Drains {
    // Whether the object by itself keeps runs from starting beneath it: it is not free, or excludes.
    fn bars(&self, tree: &Tree, holds: &Holds, o: Obj) -> bool
        requires object { o.0 < length self.now.barriers }
        requires tree { length tree.now.targets ≡ length self.now.barriers }
        requires holds { length holds.now.holds ≡ length self.now.barriers }
        ensures { result ≡ (not (is_free_by tree.now holds.now o.0) || excludes_at self.now tree.now o.0) }
    {
        !is_free(tree, holds, o) || self.excludes(tree, o)
    }

    /// Whether the chain of the node is shut: an object of it is inactive, suspended or about to move, or a run is open
    /// beneath a serial queue or source of it. Then nothing starts on the node: [`Drains::may_start`] of a block that is
    /// first there, and [`Drains::may_run`], tell of `NotFree` or `Excluded` (dispatch_suspend(3),
    /// dispatch_set_target_queue(3)).
    ///
    /// The marks say what is known of chains, and the answers of this call are added to them. So calls with the same marks
    /// look at each object at most once in all, beside one look at a mark for each call. The parts are of one plan.
    pub fn is_shut(&self, tree: &Tree, holds: &Holds, node: Obj, marks: &mut KnownChains) -> bool
        requires node { node.0 < length self.now.barriers }
        requires tree { length tree.now.targets ≡ length self.now.barriers }
        requires holds { length holds.now.holds ≡ length self.now.barriers }
        requires sound { AreSound self.now tree.now holds.now marks.old }
        ensures answer { result ≡ is_shut_by self.now tree.now holds.now node.0 }
        ensures sound { AreSound self.now tree.now holds.now marks.new }
    {
        let next = tree.target(node);
        if let Some(shut) = marks.answer(node) {
            return shut;
        }
        if self.bars(tree, holds, node) {
            marks.mark(node, true);
            return true;
        }
        if node.0 == 0 {
            marks.mark(node, false);
            return false;
        }
        let shut = self.is_shut(tree, holds, next, marks);
        marks.mark(node, shut);
        shut
    }
}
