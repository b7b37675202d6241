// The feeds of a poller in memory, by number.
ghost use Rattle.std.specs.Prelude.{◌≡◌, ◌≢◌, ◌<◌, ◌≤◌, ◌++◌, ℕ, Bool, true, false, List, length, IfOk};
ghost use Rattle.gcd_outer.specs.declared.limits.TheConstants.{MAX_FEEDS, MAX_TELLS};
ghost use Rattle.gcd_outer.specs.Feeds.{watched_in, ended_in, watched_at_in};
ghost use Rattle.gcd_outer.specs.Tells.{is_allowed, given_of, allowed_of, ended_after, ended_by};

use crate::limits::{MAX_FEEDS, MAX_TELL_BYTES};
use crate::tell::Tell;
use crate::told::Told;
use std::alloc::{AllocError, Global};

#[derive(Clone, Copy)]
pub(crate) struct Feed {
    pub(crate) watched: bool,
    pub(crate) ended: bool,
    // How many answers there were at its watch.
    pub(crate) watched_at: usize,
}

// No feed is watched.
pub(crate) fn unwatched(alloc: Global) -> Result<Vec<Feed>, AllocError>
    ensures all { IfOk result (λ feeds. length feeds.items ≡ MAX_FEEDS) }
    ensures watched { IfOk result (λ feeds. (feed : ℕ) → watched_in feeds.items feed ≡ false) }
    ensures ended { IfOk result (λ feeds. (feed : ℕ) → ended_in feeds.items feed ≡ false) }
    ensures watched_at { IfOk result (λ feeds. (feed : ℕ) → watched_at_in feeds.items feed ≡ 0) }
{
    let feed = Feed {
        watched: false,
        ended: false,
        watched_at: 0,
    };
    Vec::from_elem(alloc, feed, MAX_FEEDS as usize)
}

pub(crate) fn is_watched(feeds: &[Feed], feed: u32) -> bool
    ensures { result ≡ watched_in feeds.now feed }
{
    match feeds.get(feed as usize) {
        Some(feed) => feed.watched,
        None => false,
    }
}

// The feed is watched from now on, and has not ended.
pub(crate) fn begin(feeds: &mut [Feed], feed: u32, watched_at: usize)
    requires { feed < length feeds.old }
    ensures watched { watched_in feeds.new feed ≡ true }
    ensures ended { ended_in feeds.new feed ≡ false }
    ensures watched_at { watched_at_in feeds.new feed ≡ watched_at }
    ensures others { (other : ℕ) → other ≢ feed → watched_in feeds.new other ≡ watched_in feeds.old other }
    ensures others_ended { (other : ℕ) → other ≢ feed
        → ended_in feeds.new other ≡ ended_in feeds.old other }
    ensures others_at { (other : ℕ) → other ≢ feed
        → watched_at_in feeds.new other ≡ watched_at_in feeds.old other }
{
    feeds[feed as usize] = Feed {
        watched: true,
        ended: false,
        watched_at,
    };
}

// Whether the tell may be given.
fn permits(feeds: &[Feed], tell: &Tell) -> bool
    ensures { result ≡ is_allowed (watched_in feeds.now) (ended_in feeds.now) tell.now }
{
    match feeds.get(tell.feed as usize) {
        Some(feed) => feed.watched && !feed.ended && tell.bytes <= MAX_TELL_BYTES,
        None => false,
    }
}

// The tell is given.
fn note(feeds: &mut [Feed], tell: &Tell)
    requires { tell.now.feed < length feeds.old }
    ensures ended { (feed : ℕ) → ended_in feeds.new feed ≡ ended_after (ended_in feeds.old) tell.now feed }
    ensures watched { (feed : ℕ) → watched_in feeds.new feed ≡ watched_in feeds.old feed }
    ensures watched_at { (feed : ℕ) → watched_at_in feeds.new feed ≡ watched_at_in feeds.old feed }
{
    if tell.ended {
        feeds[tell.feed as usize].ended = true;
    }
}

// The tell is given, if it may be.
fn allow_one(feeds: &mut [Feed], tell: &Tell, into: &mut Told)
    requires all { length feeds.old ≡ MAX_FEEDS }
    requires room { length into.old < MAX_TELLS }
    ensures told { into.new ≡ into.old ++ given_of (watched_in feeds.old) (ended_in feeds.old) tell.now }
    ensures ended { (feed : ℕ) → ended_in feeds.new feed
        ≡ ended_by (ended_in feeds.old) (given_of (watched_in feeds.old) (ended_in feeds.old) tell.now) feed }
    ensures watched { (feed : ℕ) → watched_in feeds.new feed ≡ watched_in feeds.old feed }
    ensures watched_at { (feed : ℕ) → watched_at_in feeds.new feed ≡ watched_at_in feeds.old feed }
{
    if permits(feeds, tell) {
        into.push(*tell);
        note(feeds, tell);
    }
}

// The tells of an answer that may be given, one after another, are given.
pub(crate) fn allow(feeds: &mut [Feed], answer: &Told, into: &mut Told)
    requires { length feeds.old ≡ MAX_FEEDS }
    ensures told { into.new ≡ allowed_of (watched_in feeds.old) (ended_in feeds.old) answer.now }
    ensures few { length into.new ≤ MAX_TELLS }
    ensures ended { (feed : ℕ) → ended_in feeds.new feed ≡ ended_by (ended_in feeds.old) into.new feed }
    ensures watched { (feed : ℕ) → watched_in feeds.new feed ≡ watched_in feeds.old feed }
    ensures watched_at { (feed : ℕ) → watched_at_in feeds.new feed ≡ watched_at_in feeds.old feed }
{
    into.clear();
    for tell in answer.as_slice() {
        allow_one(feeds, tell, into);
    }
}
