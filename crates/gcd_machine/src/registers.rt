// All that a machine keeps.
ghost use Rattle.std.specs.Prelude.{◌≡◌, IfOk};
ghost use Rattle.gcd_refinement.specs.MachineView.{machine_of};

mod activity;
mod acts;
mod answers;
mod cell;
mod choose;
mod copy;
mod dues;
mod ends;
mod events;
mod groups;
mod intake;
mod judge;
mod kinds;
mod limits;
mod misuse;
mod new;
mod nodes;
mod plan;
mod progress;
mod quick;
mod runs;
mod strips;
mod work;

use cell::BlockCell;
use gcd_apply::Strips;
use gcd_blockobj::Marks;
use gcd_drain::{Drains, HeldChains};
use gcd_group::Groups;
use gcd_hold::Holds;
use gcd_lists::Lists;
use gcd_objects::Objects;
use gcd_plan::{Blk, Plan, Run};
use gcd_refinement::HandlerProgress;
use gcd_sema::Semas;
use gcd_sets::{BitSet, Times};
use gcd_source::Sources;
use gcd_sync::Waits;
use gcd_timer::Timers;
use gcd_tree::Tree;
use std::marker::Model;
use std::sync::Arc;

/// All that a machine keeps: the plan, which its copies share, the twelve parts and its own arrays. No array grows.
#[derive(Drop)]
pub struct Registers {
    pub plan: Arc<Plan>,
    pub refs: Objects,
    pub lists: Lists,
    pub tree: Tree,
    pub holds: Holds,
    pub drains: Drains,
    // the objects whose chain is held, which the tree and the holds tell
    pub held: HeldChains,
    pub groups: Groups,
    pub semas: Semas,
    pub waits: Waits,
    pub sources: Sources,
    pub timers: Timers,
    // the blocks that sleep at each semaphore and group
    pub sleepers: Lists,
    // the blocks that wait for the end of each by an act of their own; of no block where no act of the plan needs marks
    pub waiters: Lists,
    // by strip: the block that applied it and waits
    pub appliers: Vec<Option<Blk>>,
    pub strips: Strips,
    pub marks: Marks,
    // how many blocks of the intake are accepted, and whether it is shut
    pub accepted: u32,
    pub shut: bool,
    // by block
    pub blocks: Vec<BlockCell>,
    pub ended: Vec<bool>,
    // the parked blocks that may wake
    pub wakeable: BitSet,
    // the limits of waits that are not over, where they are above the time; of no block where no act of the plan has a limit
    pub ahead: Times,
    // the parked blocks whose wait may expire
    pub ripe: BitSet,
    // by object
    pub handlers: Vec<HandlerProgress>,
    // the nodes that have to be looked at for a Start or a Deliver: each where a block waits or something is pending
    pub busy: BitSet,
    // the read sources that are live
    pub live: BitSet,
    // the run that each worker has
    pub workers: Vec<Option<Run>>,
    // how many runs are open and not parked
    pub running: u32,
    // how many blocks are submitted and have not ended
    pub left: u32,
    pub misused: bool,
    pub halted: bool,
    // how many events have come
    pub len: u32,
}

// The parts and arrays in groups, as they are made.
type EndParts = (Lists, Vec<Option<Blk>>, Strips, Marks);

type NodeParts = (Objects, Lists, Tree, Holds, Drains);

type EventParts = (Groups, Semas, Waits, Sources, Timers);

type BlockArrays = (Vec<BlockCell>, Vec<bool>, BitSet, Times, BitSet);

type RunArrays = (Vec<HandlerProgress>, BitSet, BitSet, Vec<Option<Run>>);

impl Model for Registers {
    ghost use Rattle.gcd_refinement.specs.MachineView.{MachineView};

    ghost Value = { MachineView };

    ghost use Rattle.gcd_machine.specs.Inside.{view_of};

    ghost view = { view_of };

    ghost use Rattle.gcd_machine.specs.KnowsHeld.{KnowsHeld};

    ghost invariant = { λ r. KnowsHeld r.held r.tree r.holds };
}
