//! How a run looks: the marks of its journal as a page of SVG, and as trace events (this project's own rules).
//!
//! | call | answer |
//! |---|---|
//! | [`svg`] | the marks as a page of SVG |
//! | [`trace`] | the marks in the trace event format |
//! | [`trace_of`] | the same of a run of a plan without a script |
//!
//! The first two take a [`Showing`]: the marks that [`gcd_timeline::marks`] makes of the journal, the state to which it has come, in words,
//! and the [`ScriptLines`] of its script. Nothing is promised of the texts but that they are made or memory runs out;
//! `gcd_timeline_tests` compares small ones whole.
#![tactic(auto)]

mod bars;
mod cancelled;
mod drawing;
mod ending;
mod escape;
mod frame;
mod labels;
mod lanes;
mod legend;
mod naming;
mod outside;
mod page;
mod palette;
mod parking;
mod queues;
mod rows;
mod scale;
mod script_lines;
mod showing;
mod submissions;
mod swatches;
mod tracing;
mod unstarted;
mod verticals;

pub use escape::{push_json, push_xml};
pub use naming::{run_name, state_word};
pub use page::svg;
pub use script_lines::ScriptLines;
pub use showing::{Note, Showing};
pub use tracing::{trace, trace_of};
