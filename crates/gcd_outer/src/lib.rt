//! The outside of the program: what comes in and what goes out. (This project's own rules.)
//!
//! | trait | what it is | model | in memory | over the system (`gcd_system`) |
//! |---|---|---|---|---|
//! | `Shelf` | contents by name, loaded whole | the content under each name; the number of loads | `MapShelf` | `FileShelf` |
//! | `Sink` | takes bytes, piece by piece | the bytes taken so far | `VecSink` | `StdoutSink` |
//! | `Poller` | tells how many bytes came from feeds | the answers so far; for each watched feed the number of answers at its watch; the watches; the listens | `ListPoller` | `NetPoller` |
//! | `Clock` | the time in milliseconds | the present; the greatest moment waited for | `JumpClock` | `SystemClock` |
//!
//! All but `Clock` also have a count of faults that never falls. What the traits promise:
//!
//! | call | answers | and then |
//! |---|---|---|
//! | `Shelf::load` | `Ok` | `into` is the content of the name, at most `most` bytes |
//! | | `Failed` | the count of faults rose |
//! | | `Missing` | the shelf tells what it holds, and lacks the name |
//! | | `TooLong(n)` | n bytes were seen, more than `most`; where told, the content has n bytes |
//! | | `Memory` | there was not the memory to hold the content |
//! | | any of these four | `into` is empty |
//! | `Sink::write` | `Ok(n)` | the first n bytes of the piece were taken, at least one if there is one |
//! | | `Failed` | the count of faults rose, and nothing was taken |
//! | `write_whole` | `Ok` | the whole text was taken |
//! | | `Failed` | the count of faults rose, and a proper front of the text was taken |
//! | `Poller::listen` | `Ok` | connections are accepted at the address |
//! | `Poller::watch` | `Ok` | the feed is watched, and has not ended |
//! | `Poller::poll` | `Ok` | `into` is the answer: at most `MAX_TELLS` tells, each of a watched feed that has not ended, of at most `MAX_TELL_BYTES` bytes |
//! | any of these three | `Ok` | the count of faults is as it was |
//! | | `Failed` | the count of faults rose, and all else is as it was, but for the number of listens |
//! | `Clock::now` | the time | it is not below an earlier answer; where told, it is the present |
//! | `Clock::wait_until`, `wait_for` | | the present is at least the moment waited for |
//!
//! Each trait has a ghost member `state`: what the thing holds or has told so far, and its count of faults. What is told is a field
//! of that state, as `content` or `answers`, and the clauses on it hold if the ghost member `tells` is true: it is true in memory,
//! and false over the system. The contracts of callers speak of what calls saw of it (`seen`): `tells`, and its state before and
//! after them. A count rises at a fault, in memory by one and at nothing else; since it is a 64-bit number, it stops at 2^64 - 1,
//! and "the count rose" (`Rises`) says: it rose, or it stands at that last number.
//!
//! `Poller::poll`, `Clock::wait_until` and `Clock::wait_for` alone wait for others; no proof says that they return.
//! Nothing is said of what a file, a socket or a terminal gives or takes, nor of how long a wait is.
//!
//! The bytes of a read source, and its end, come from the poller.
#![tactic(auto)]

mod answer_list;
mod calls;
mod clock;
mod feed;
mod jump_clock;
mod limits;
mod list_poller;
mod map_shelf;
mod poller;
mod shelf;
mod sink;
mod tell;
mod text_log;
mod told;
mod vec_sink;

pub use clock::{Clock, Due};
pub use jump_clock::JumpClock;
pub use limits::{MAX_FEEDS, MAX_TELL_BYTES, MAX_TELLS};
pub use list_poller::ListPoller;
pub use map_shelf::MapShelf;
pub use poller::Poller;
pub use shelf::{LoadFault, Shelf};
pub use sink::{Failed, Sink, write_whole};
pub use tell::Tell;
pub use told::Told;
pub use vec_sink::VecSink;
