// A board whose row begins with what a list has kept.
ghost use Rattle.std.specs.Prelude.{◌≡◌, ◌+◌, ◌<◌, ◌≤◌, IfErr, IfOk, length};
ghost use Rattle.gcd_jobs.specs.Contents.{contents};
ghost use Rattle.gcd_plan.specs.Limits.{max_workers};
ghost use Rattle.gcd_row.specs.Lying.{source_shape};
ghost use Rattle.gcd_row.specs.Passes.{IsGathered, IsPassOf, terms_of, view};
ghost use Rattle.gcd_row.specs.Shapes.{gives_of};
ghost use Rattle.gcd_workers.specs.JobsRuns.{tally_shape};
ghost use Rattle.gcd_workers.specs.ListRuns.{IsKept};
ghost use Rattle.gcd_workers.specs.Opened.{AreCellsOf, IsBlockCell, IsCellOf, IsStopped, file_gives};
ghost use Rattle.gcd_workers.specs.Teams.{IsNew};

use crate::list_run::Kept;
use crate::over::Over;
use gcd_event::Entry;
use gcd_jobs::{FileJob, Tally};
use gcd_plan::{Blk, Obj};
use gcd_row::{Board, Cell, Limits, Pass, RowBoard};
use std::alloc::{AllocError, Global};

// Makes the cell of a block: its value if it has ended, and otherwise its job.
fn block_cell<'a>(over: Over<'a>, kept: &Kept, b: Blk) -> Cell<FileJob<'a>, Tally>
    requires run { IsKept over kept.now }
    requires within { b.0 < length over.plan.now.blocks }
    ensures { IsBlockCell over.entry.plan.now (contents over.entry.files.now) kept.now.journal.items kept.now.values.items b.0 result }
{
    if kept.machine.is_ended(b) {
        return Cell::Done(kept.values[b.0 as usize]);
    }
    Cell::Body(FileJob::new(over.files, over.plan.work(b)))
}

// Makes the cell of an object: a tally that took what the list's took for a source, and nothing for another object.
fn object_cell<'a>(over: Over<'a>, kept: &Kept, object: Obj) -> Cell<FileJob<'a>, Tally>
    requires run { IsKept over kept.now }
    requires within { object.0 < length over.plan.now.objects }
    ensures { tally_shape result ≡ source_shape over.entry.plan.now kept.now.journal.items object.0 }
{
    if !over.plan.kind(object).is_source() {
        return Cell::Away;
    }
    let tally = &kept.tallies[object.0 as usize];
    Cell::Handler(Tally {
        kind: tally.kind,
        times: tally.times,
        total: tally.total,
    })
}

// Makes the cell of a slot.
fn cell_of<'a>(over: Over<'a>, kept: &Kept, slot: u32) -> Cell<FileJob<'a>, Tally>
    requires run { IsKept over kept.now }
    requires within { slot < length over.plan.now.blocks + length over.plan.now.objects }
    ensures { IsCellOf over.entry.plan.now (contents over.entry.files.now) kept.now.journal.items kept.now.values.items slot result }
{
    let blocks = over.plan.blocks();
    if slot < blocks {
        return block_cell(over, kept, Blk(slot));
    }
    object_cell(over, kept, Obj(slot - blocks))
}

// Makes the cells of a board whose row begins with the journal of a list. Returns `Err` if memory runs out.
fn cells_after<'a>(
    alloc: Global,
    over: Over<'a>,
    kept: &Kept,
) -> Result<Vec<Cell<FileJob<'a>, Tally>>, AllocError>
    requires { IsKept over kept.now }
    ensures { IfOk result (λ cells. AreCellsOf over.entry kept.now cells.items) }
{
    let slots = over.plan.blocks() + over.plan.objects();
    let mut cells = Vec::with_capacity(alloc, slots as usize)?;
    for slot in 0..slots {
        cells.push(cell_of(over, kept, slot))?;
    }
    Ok(cells)
}

// A board, worker 0's pass, and the journal of the list.
type Opened<'a> = (
    Board<FileJob<'a>, Tally>,
    Pass<FileJob<'a>, Tally>,
    Vec<Entry>,
);

/// Makes a board for this many hands whose row begins with what a list has kept. Returns `Err` with that if memory runs out.
pub(crate) fn open_after<'a>(
    alloc: Global,
    over: Over<'a>,
    kept: Kept,
    hands: u8,
) -> Result<Opened<'a>, Kept>
    requires hands { (0 < hands) × (hands ≤ max_workers) }
    requires most { 0 < over.most }
    requires run { IsKept over kept }
    requires stopped { IsStopped over.plan.now kept.journal.items }
    ensures plan { IfOk result (λ made. (terms_of made.0).plan ≡ over.entry.plan.now) }
    ensures limits { IfOk result (λ made. (terms_of made.0).limits ≡ record { workers = hands; most = over.entry.most }) }
    ensures cells { IfOk result (λ made. AreCellsOf over.entry kept (terms_of made.0).cells) }
    ensures pass { IfOk result (λ made. IsPassOf tally_shape (gives_of file_gives) made.0 made.1) }
    ensures new { IfOk result (λ made. IsNew (view made.1)) }
    ensures begun { IfOk result (λ made. (view made.1).seen ≡ kept.journal.items) }
    ensures gathered { IfOk result (λ made. IsGathered (view made.1) made.2.items) }
    ensures err { IfErr result (λ back. back ≡ kept) }
{
    let Ok(cells) = cells_after(alloc, over, &kept) else {
        return Err(kept);
    };
    let limits = Limits {
        workers: hands,
        most: over.most,
    };
    let Kept {
        journal,
        values,
        tallies,
        machine,
    } = kept;
    match RowBoard::after(alloc, over.plan, cells, machine, &journal, limits) {
        Ok((board, pass)) => Ok((board, pass, journal)),
        Err((_, machine)) => Err(Kept {
            journal,
            values,
            tallies,
            machine,
        }),
    }
}
