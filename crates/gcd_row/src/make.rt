// How a board is made.
ghost use Rattle.std.specs.Prelude.{◌≡◌, ◌<◌, ◌≤◌, ◌++◌, [], length, map, drop, IfErr, IfOk, OnOk, if◌then◌else◌};
ghost use Rattle.std.specs.Vec.Iter.{into_iter_items, into_iter_len};
ghost use Rattle.gcd_machine.specs.Stands.{StandsFor};
ghost use Rattle.gcd_plan.specs.Validity.{IsPlan};
ghost use Rattle.gcd_row.specs.Opening.{AreHandlersOf, AreFirst, Opens, next_cell, object_cells, first_cells, terms_with};
ghost use Rattle.gcd_row.specs.Passes.{IsPassOf, terms_of, view};
ghost use Rattle.gcd_row.specs.Ring.{ring_words};
ghost use Rattle.gcd_row.specs.Shapes.{shape_of, gives_of};
ghost use Rattle.gcd_row.specs.Views.{first_view, given_terms, opening_view};
ghost use Rattle.gcd_row.specs.declared.cell.Cell.TheVariants.{Body, Away};

use crate::board::{Board, RowBoard, RowTable};
use crate::cell::{Cell, Slot};
use crate::first_words::first_words;
use crate::pass::{Pass, RowPass};
use crate::view::{Copies, Limits, View};
use atomic_table::{Refused, Seat, Table};
use gcd_event::Entry;
use gcd_jobs::{Handler, Job};
use gcd_machine::Machine;
use gcd_plan::{Obj, Plan};
use std::alloc::{AllocError, Global};
use std::snapshot::Snapshot;
use std::vec::IntoIter;

// Makes ghost copies of a plan, of cells and of a history.
fn copies_of<S>(plan: &Plan, cells: &Vec<S>, history: &Vec<Entry>, limits: Limits) -> Copies<S>
    ensures { (result.plan.value ≡ plan.now) × (result.cells.value ≡ cells.now) × (result.history.value ≡ history.now) × (result.limits ≡ limits) }
{
    Copies {
        plan: Snapshot::of(plan),
        cells: Snapshot::of(cells),
        history: Snapshot::of(history),
        limits,
    }
}

// Makes the cell of the next handler.
fn next_of<J, H>(left: &mut IntoIter<H, Global>) -> Cell<J, H>
    requires { into_iter_len left.old ≡ length (into_iter_items left.old) }
    ensures cell { result ≡ next_cell (into_iter_items left.old) }
    ensures left { into_iter_items left.new ≡ drop 1 (into_iter_items left.old) }
    ensures count { into_iter_len left.new ≡ length (into_iter_items left.new) }
{
    match left.next() {
        Some(handler) => Cell::Handler(handler),
        None => Cell::Away,
    }
}

// Makes the cell of the next object. A source has the next handler, and another object has nothing.
fn object_cell<J, H>(is_source: bool, left: &mut IntoIter<H, Global>) -> Cell<J, H>
    requires { into_iter_len left.old ≡ length (into_iter_items left.old) }
    ensures cell { result ≡ (if is_source then next_cell (into_iter_items left.old) else Away) }
    ensures left { into_iter_items left.new ≡ (if is_source then drop 1 (into_iter_items left.old) else into_iter_items left.old) }
    ensures count { into_iter_len left.new ≡ length (into_iter_items left.new) }
{
    if is_source { next_of(left) } else { Cell::Away }
}

// Makes the cells of the blocks, with room for this many slots.
fn block_cells<J: Drop, H: Drop>(
    alloc: Global,
    jobs: Vec<J>,
    slots: usize,
) -> Result<Vec<Cell<J, H>>, AllocError>
    ensures { IfOk result (λ cells. cells.items ≡ map (λ job. Body job) jobs.items) }
{
    let mut cells = Vec::with_capacity(alloc, slots)?;
    for job in jobs {
        cells.push(Cell::Body(job))?;
    }
    Ok(cells)
}

// Adds the cells of the objects.
fn add_objects<J: Drop, H: Drop>(
    plan: &Plan,
    handlers: Vec<H>,
    cells: &mut Vec<Cell<J, H>>,
) -> Result<(), AllocError>
    ensures { OnOk result (cells.new.items ≡ cells.old.items ++ object_cells plan.now.objects handlers.items) }
{
    let mut left = handlers.into_iter();
    for number in 0..plan.objects() {
        let is_source = plan.kind(Obj(number)).is_source();
        cells.push(object_cell(is_source, &mut left))?;
    }
    Ok(())
}

// Makes a table over these cells whose row begins with this history, and its first seat. An `Err` gives the cells back.
fn open_table<S: Slot + Drop>(
    alloc: Global,
    plan: &Plan,
    cells: Vec<S>,
    history: &Vec<Entry>,
    limits: Limits,
) -> Result<(RowTable<S>, Seat<S, View<S>>), Vec<S>>
    requires limits { (0 < limits.workers) × (limits.workers ≤ 64) }
    requires valid { IsPlan plan.now }
    requires opens { Opens S.shape S.gives (terms_with plan.now cells.items limits (length history.now.items)) history.now.items }
    ensures words { IfOk result (λ made. made.0.shared.table_id.words ≡ ring_words) }
    ensures limits { IfOk result (λ made. made.0.shared.key.limits ≡ limits) }
    ensures history { IfOk result (λ made. made.0.shared.key.history.value.items ≡ history.now.items) }
    ensures terms { IfOk result (λ made. given_terms made.0.shared.key ≡ terms_with plan.now cells.items limits (length history.now.items)) }
    ensures seat { IfOk result (λ made. (made.1.table_id ≡ made.0.shared.table_id) × (made.1.me ≡ (opening_view made.0.shared.key, []))) }
    ensures err { IfErr result (λ back. back.items ≡ cells.items) }
{
    let Ok(words) = first_words(alloc, limits.workers, history) else {
        return Err(cells);
    };
    let copies = copies_of(plan, &cells, history, limits);
    match Table::new(alloc, words.as_slice(), cells, &copies) {
        Ok(made) => Ok(made),
        Err(Refused { slots }) => Err(slots),
    }
}

// Makes the board of a new table, and worker 0's pass.
fn open_board<S: Slot + Drop>(
    table: RowTable<S>,
    seat: Seat<S, View<S>>,
    machine: Machine,
    opened: u32,
    limits: Limits,
) -> (RowBoard<S>, RowPass<S>)
    requires words { table.shared.table_id.words ≡ ring_words }
    requires limits { table.shared.key.limits ≡ limits }
    requires bounds { (0 < limits.workers) × (limits.workers ≤ 64) × (0 < limits.most) × (limits.most < 4294967296) }
    requires opened { opened ≡ length table.shared.key.history.value.items }
    requires stands { StandsFor machine table.shared.key.plan.value table.shared.key.history.value.items }
    requires opens { Opens S.shape S.gives (given_terms table.shared.key) table.shared.key.history.value.items }
    requires seat { (seat.table_id ≡ table.shared.table_id) × (seat.me ≡ (opening_view table.shared.key, [])) }
    ensures key { result.0.table.shared.key ≡ table.shared.key }
    ensures pass { IsPassOf S.shape S.gives result.0 result.1 }
    ensures view { view result.1 ≡ opening_view result.0.table.shared.key }
{
    let pass = RowPass {
        seat,
        machine,
        number: 0,
        passed: u64::from(opened),
        floor: u64::from(opened),
        upto: 64,
        beneath: None,
    };
    let board = RowBoard {
        table,
        limits,
        opened,
    };
    (board, pass)
}

impl<S: Slot + Drop> RowBoard<S> {
    /// Makes a board whose row begins with a history, and worker 0's pass, which has seen and passed all of it. The board is for 1 to 64
    /// workers, and each has to pass on in each lap of the ring. It takes 1 to 4,294,967,295 events, and those of the history count. Each
    /// event of the history is worker 0's or of the outside. After it worker 0 holds no run, and no job of an outside caller was accepted.
    /// The machine stands for it. The slots have one cell for each block and then one for each object, as [`RowBoard::close`] leaves them
    /// at the end of such a history. Returns `Err` only if memory runs out, and gives cells and machine back.
    pub fn after(
        alloc: Global,
        plan: &Plan,
        cells: Vec<S>,
        machine: Machine,
        history: &Vec<Entry>,
        limits: Limits,
    ) -> Result<(RowBoard<S>, RowPass<S>), (Vec<S>, Machine)>
        requires limits { (0 < limits.workers) × (limits.workers ≤ 64) × (0 < limits.most) }
        requires valid { IsPlan plan.now }
        requires stands { StandsFor machine plan.now history.now.items }
        requires opens { Opens S.shape S.gives (terms_with plan.now cells.items limits (length history.now.items)) history.now.items }
        ensures terms { IfOk result (λ made. terms_of made.0 ≡ terms_with plan.now cells.items limits (length history.now.items)) }
        ensures pass { IfOk result (λ made. IsPassOf S.shape S.gives made.0 made.1) }
        ensures view { IfOk result (λ made. view made.1 ≡ first_view (terms_of made.0) history.now.items) }
        ensures err { IfErr result (λ back. (back.0.items ≡ cells.items) × (back.1 ≡ machine)) }
    {
        let opened = history.len() as u32;
        match open_table(alloc, plan, cells, history, limits) {
            Ok((table, seat)) => Ok(open_board(table, seat, machine, opened, limits)),
            Err(cells) => Err((cells, machine)),
        }
    }
}

impl<J: Job + Drop, H: Handler + Drop> RowBoard<Cell<J, H>> {
    /// Makes a board with no event in its row, and worker 0's pass, which has seen and passed nothing. The board is for 1 to 64 workers,
    /// and each has to pass on in each lap of the ring. It takes at most `most` events, 1 to 4,294,967,295. There is one job for each block,
    /// `main`'s first, and one handler for each source, by number, of the source's kind, which has not been called yet. The slots have the
    /// jobs, by the numbers of their blocks, and then one cell for each object: a source's handler, or nothing. Returns `Err` only if memory
    /// runs out, and drops jobs and handlers then.
    pub fn new(
        alloc: Global,
        plan: &Plan,
        jobs: Vec<J>,
        handlers: Vec<H>,
        workers: u8,
        most: u32,
    ) -> Result<(Board<J, H>, Pass<J, H>), AllocError>
        requires limits { (0 < workers) × (workers ≤ 64) × (0 < most) }
        requires jobs { length jobs.items ≡ length plan.now.blocks }
        requires handlers { AreHandlersOf H.kind H.times H.total plan.now handlers.items }
        ensures plan { IfOk result (λ made. (terms_of made.0).plan ≡ plan.now) }
        ensures limits { IfOk result (λ made. (terms_of made.0).limits ≡ record { workers = workers; most = most }) }
        ensures cells { IfOk result (λ made. (terms_of made.0).cells ≡ first_cells plan.now jobs.items handlers.items) }
        ensures first { IfOk result (λ made. AreFirst (shape_of H.kind H.times H.total) (terms_of made.0).plan (terms_of made.0).cells) }
        ensures pass { IfOk result (λ made. IsPassOf (shape_of H.kind H.times H.total) (gives_of J.gives) made.0 made.1) }
        ensures view { IfOk result (λ made. view made.1 ≡ first_view (terms_of made.0) []) }
    {
        let slots = plan.blocks() as usize + plan.objects() as usize;
        let mut cells = block_cells(alloc, jobs, slots)?;
        add_objects(plan, handlers, &mut cells)?;
        let machine = Machine::new(alloc, plan)?;
        let limits = Limits { workers, most };
        match RowBoard::after(alloc, plan, cells, machine, &Vec::new(alloc), limits) {
            Ok(made) => Ok(made),
            Err(_) => Err(AllocError),
        }
    }
}
