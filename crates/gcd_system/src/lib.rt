//! The outside over the system: files, standard output, sockets and the monotonic clock. (This project's own rules.)
//!
//! | type | is a | over |
//! |---|---|---|
//! | `FileShelf` | `Shelf` | the system's files; a name is a path |
//! | `StdoutSink` | `Sink` | standard output |
//! | `NetPoller` | `Poller` | regular files and TCP connections |
//! | `SystemClock` | `Clock` | the monotonic clock, in milliseconds from when it was made |
//!
//! Each keeps the clauses of its trait of `gcd_outer`, with `tells` false: nothing is said of what a file, a socket, a
//! terminal or a clock gives or takes. Besides, a `NetPoller` refuses to watch `tcp` before a listen has succeeded. What fails
//! in the system is counted as a fault; a clock has none.
#![tactic(auto)]

mod file_shelf;
mod net_poller;
mod slot;
mod slots;
mod stdout_sink;
mod system_clock;

pub use file_shelf::FileShelf;
pub use net_poller::NetPoller;
pub use stdout_sink::StdoutSink;
pub use system_clock::SystemClock;
