// What a name of a script stands for.

use gcd_plan::{Blk, Obj};

/// What a declared name stands for. All names share one space.
#[derive(Clone, Copy)]
pub enum Meaning {
    /// A file, by its number from 0.
    File(u32),
    /// A queue, a group, a semaphore or a source; `root` is object 0.
    Object(Obj),
    /// A block.
    Block(Blk),
    /// A strip, by its number from 0 (dispatch_apply(3)).
    Strip(u32),
}
