// A poller in memory, which tells its answers, watches and listens.
ghost use Rattle.std.specs.Prelude.{◌≡◌, ◌+◌, ◌<◌, ◌≤◌, ◌++◌, ◌∷◌, [], ℕ, nat_le, true, false, length, IfOk, OnOk, OnErr};
ghost use Rattle.gcd_outer.specs.declared.limits.TheConstants.{MAX_FEEDS, MAX_TELLS};
ghost use Rattle.gcd_outer.specs.Answers.{first_of};
ghost use Rattle.gcd_outer.specs.Feeds.{watched_in, ended_in, watched_at_in};
ghost use Rattle.gcd_outer.specs.Tells.{allowed_of, ended_by};
ghost use Rattle.gcd_outer.specs.Texts.{bytes_of};

use crate::answer_list::AnswerList;
use crate::calls::Calls;
use crate::feed::{Feed, allow, begin, is_watched, unwatched};
use crate::limits::MAX_FEEDS;
use crate::poller::Poller;
use crate::sink::Failed;
use crate::text_log::TextLog;
use crate::told::Told;
use std::alloc::{AllocError, Global};

/// A poller in memory. It tells its answers, watches and listens. It gives the answers of a list in
/// order, without the tells that a poller may not give: those of a feed that is not watched or has
/// ended, and those of more than `MAX_TELL_BYTES` bytes. After the last it gives empty answers.
///
/// It fails in the listens, watches and polls that `fail_listen`, `fail_watch` and `fail_poll` name, in
/// a listen or a watch that would pass its room, and in a poll after 2^64 - 1 answers; a listen after one
/// that succeeded may also fail for lack of memory. A poll that fails uses up no answer, and a listen or a
/// watch that fails uses no room.
#[derive(Drop)]
pub struct ListPoller {
    answers: AnswerList,
    feeds: Vec<Feed>,
    paths: TextLog,
    addresses: TextLog,
    listens: Calls,
    watches: Calls,
    polls: Calls,
    faults: u64,
    ghost all: { length feeds.items ≡ MAX_FEEDS },
    ghost one_room: { addresses.byte_room ≡ paths.byte_room },
    ghost first_address: { addresses.text_room ≡ 1 },
}

impl ListPoller {
    ghost use Rattle.gcd_outer.specs.InMemory.{left_of, watch_room_of, byte_room_of, used_of, watch_calls_of, polls_of};
    ghost use Rattle.gcd_outer.specs.InMemory.{failing_listens, failing_watches, failing_polls, IsSamePoller};

    /// A poller with these answers to give, with room for so many watches, and for so many bytes of
    /// addresses and paths together. No feed is watched. The room is taken here: no later call takes
    /// memory, but for a second address.
    pub fn new(
        alloc: Global,
        answers: Vec<Told>,
        watches: usize,
        bytes: usize,
    ) -> Result<Self, AllocError>
        ensures answers { IfOk result (λ p. (⟦<ListPoller as Poller>⟧.state p).answers ≡ []) }
        ensures watched { IfOk result (λ p. (feed : ℕ) → (⟦<ListPoller as Poller>⟧.state p).watched feed ≡ false) }
        ensures ended { IfOk result (λ p. (feed : ℕ) → (⟦<ListPoller as Poller>⟧.state p).ended feed ≡ false) }
        ensures watched_at { IfOk result (λ p. (feed : ℕ) → (⟦<ListPoller as Poller>⟧.state p).watched_at feed ≡ 0) }
        ensures watches { IfOk result (λ p. (⟦<ListPoller as Poller>⟧.state p).watches ≡ []) }
        ensures listens { IfOk result (λ p. (⟦<ListPoller as Poller>⟧.state p).listens ≡ 0) }
        ensures addresses { IfOk result (λ p. (⟦<ListPoller as Poller>⟧.state p).addresses ≡ []) }
        ensures faults { IfOk result (λ p. (⟦<ListPoller as Poller>⟧.state p).faults ≡ 0) }
        ensures left { IfOk result (λ p. left_of p ≡ answers.items) }
        ensures watch_room { IfOk result (λ p. watch_room_of p ≡ watches) }
        ensures byte_room { IfOk result (λ p. byte_room_of p ≡ bytes) }
        ensures used { IfOk result (λ p. used_of p ≡ 0) }
        ensures watch_calls { IfOk result (λ p. watch_calls_of p ≡ 0) }
        ensures polls { IfOk result (λ p. polls_of p ≡ 0) }
        ensures failing_listens { IfOk result (λ p. failing_listens p ≡ []) }
        ensures failing_watches { IfOk result (λ p. failing_watches p ≡ []) }
        ensures failing_polls { IfOk result (λ p. failing_polls p ≡ []) }
    {
        Ok(ListPoller {
            answers: AnswerList::new(answers),
            feeds: unwatched(alloc)?,
            paths: TextLog::with_capacity(alloc, watches, bytes)?,
            addresses: TextLog::with_capacity(alloc, 1, bytes)?,
            listens: Calls::new(alloc),
            watches: Calls::new(alloc),
            polls: Calls::new(alloc),
            faults: 0,
        })
    }

    /// The listen of this number, counted from 0, is to fail. Being out of memory leaves the poller as it was.
    pub fn fail_listen(&mut self, listen: u64) -> Result<(), AllocError>
        ensures ok { OnOk result (failing_listens self.new ≡ failing_listens self.old ++ listen ∷ []) }
        ensures wanting { OnErr result (failing_listens self.new ≡ failing_listens self.old) }
        ensures watches { failing_watches self.new ≡ failing_watches self.old }
        ensures polls { failing_polls self.new ≡ failing_polls self.old }
        ensures same { IsSamePoller self.old self.new }
    {
        self.listens.fail(listen)
    }

    /// The watch of this number, counted from 0, is to fail. Being out of memory leaves the poller as it was.
    pub fn fail_watch(&mut self, watch: u64) -> Result<(), AllocError>
        ensures ok { OnOk result (failing_watches self.new ≡ failing_watches self.old ++ watch ∷ []) }
        ensures wanting { OnErr result (failing_watches self.new ≡ failing_watches self.old) }
        ensures listens { failing_listens self.new ≡ failing_listens self.old }
        ensures polls { failing_polls self.new ≡ failing_polls self.old }
        ensures same { IsSamePoller self.old self.new }
    {
        self.watches.fail(watch)
    }

    /// The poll of this number, counted from 0, is to fail. Being out of memory leaves the poller as it was.
    pub fn fail_poll(&mut self, poll: u64) -> Result<(), AllocError>
        ensures ok { OnOk result (failing_polls self.new ≡ failing_polls self.old ++ poll ∷ []) }
        ensures wanting { OnErr result (failing_polls self.new ≡ failing_polls self.old) }
        ensures listens { failing_listens self.new ≡ failing_listens self.old }
        ensures watches { failing_watches self.new ≡ failing_watches self.old }
        ensures same { IsSamePoller self.old self.new }
    {
        self.polls.fail(poll)
    }
}

// Whether there is room for so many bytes more.
fn has_room(paths: &TextLog, addresses: &TextLog, more: usize) -> bool
    ensures { result ≡ nat_le (bytes_of paths.now.texts + bytes_of addresses.now.texts + more) paths.now.byte_room }
{
    let used = paths.byte_count() as u128 + addresses.byte_count() as u128;
    used + more as u128 <= paths.byte_room() as u128
}

// The next answer is given, without the tells that may not be given; after the last an empty one.
fn give_next(answers: &AnswerList, feeds: &mut [Feed], into: &mut Told)
    requires { length feeds.old ≡ MAX_FEEDS }
    ensures told { into.new ≡ allowed_of (watched_in feeds.old) (ended_in feeds.old) (first_of answers.now.left) }
    ensures few { length into.new ≤ MAX_TELLS }
    ensures ended { (feed : ℕ) → ended_in feeds.new feed ≡ ended_by (ended_in feeds.old) into.new feed }
    ensures watched { (feed : ℕ) → watched_in feeds.new feed ≡ watched_in feeds.old feed }
    ensures watched_at { (feed : ℕ) → watched_at_in feeds.new feed ≡ watched_at_in feeds.old feed }
{
    match answers.first() {
        Some(answer) => allow(feeds, answer, into),
        None => into.clear(),
    }
}

impl Poller for ListPoller {
    ghost use Rattle.std.specs.Prelude.{◌≡◌, ◌≢◌, ◌≤◌, ◌<◌, ◌+◌, ◌-◌, ◌^◌, ◌++◌, ◌∷◌, ◌⊎◌, ℕ, [], true, false, length, drop, Contains, IsErr, OnOk, OnErr};
    ghost use Rattle.gcd_outer.specs.Outside.{Rises, next_count};
    ghost use Rattle.gcd_outer.specs.Answers.{first_of};
    ghost use Rattle.gcd_outer.specs.InMemory.{answers_of, watched_at_of, watches_of, listens_of};
    ghost use Rattle.gcd_outer.specs.InMemory.{addresses_of, watched_of, ended_of, faults_of, state_of};
    ghost use Rattle.gcd_outer.specs.InMemory.{left_of, failing_listens, failing_watches, failing_polls, polls_of, watch_calls_of};
    ghost use Rattle.gcd_outer.specs.InMemory.{used_of, watch_room_of, byte_room_of, IsSamePlan};
    ghost use Rattle.gcd_outer.specs.Tells.{AreTells, allowed_of, ended_by, answers_after};

    ghost tells = { true };

    ghost state = { state_of };

    // What each poller promises, and then: it fails just where that is planned, past the room, or, where
    // an address is held already, for lack of memory.
    fn listen(&mut self, addr: &str) -> Result<(), Failed>
        ensures watched { (feed : ℕ) → watched_of self.new feed ≡ watched_of self.old feed }
        ensures ended { (feed : ℕ) → ended_of self.new feed ≡ ended_of self.old feed }
        ensures answers { answers_of self.new ≡ answers_of self.old }
        ensures watched_at { (feed : ℕ) → watched_at_of self.new feed ≡ watched_at_of self.old feed }
        ensures watches { watches_of self.new ≡ watches_of self.old }
        ensures listens { listens_of self.new ≡ next_count (listens_of self.old) }
        ensures address { OnOk result (addresses_of self.new ≡ addresses_of self.old ++ addr.now ∷ []) }
        ensures no_address { OnErr result (addresses_of self.new ≡ addresses_of self.old) }
        ensures ok { OnOk result (faults_of self.new ≡ faults_of self.old) }
        ensures failed { OnErr result (Rises (faults_of self.old) (faults_of self.new)) }
        ensures faults { faults_of self.old ≤ faults_of self.new }

        ensures one_fault { OnErr result (faults_of self.new ≡ next_count (faults_of self.old)) }
        ensures planned { Contains (failing_listens self.old) (listens_of self.old) → IsErr result }
        ensures past_room { byte_room_of self.old < used_of self.old + length addr.now → IsErr result }
        ensures else_only { OnErr result (Contains (failing_listens self.old) (listens_of self.old)
            ⊎ (byte_room_of self.old < used_of self.old + length addr.now)
            ⊎ (0 < length (addresses_of self.old))) }
        ensures used { OnOk result (used_of self.new ≡ used_of self.old + length addr.now) }
        ensures unused { OnErr result (used_of self.new ≡ used_of self.old) }
        ensures left { left_of self.new ≡ left_of self.old }
        ensures watch_calls { watch_calls_of self.new ≡ watch_calls_of self.old }
        ensures polls { polls_of self.new ≡ polls_of self.old }
        ensures plan { IsSamePlan self.old self.new }
    {
        let planned = self.listens.next();
        let fits = has_room(&self.paths, &self.addresses, addr.len());
        if planned || !fits || self.addresses.push(0, addr).is_err() {
            self.faults = self.faults.saturating_add(1);
            return Err(Failed);
        }
        Ok(())
    }

    // What each poller promises, and then: it fails just where that is planned, or past the room.
    fn watch(&mut self, feed: u32, path: &str) -> Result<(), Failed>
        requires { feed < MAX_FEEDS }
        ensures watches_it { OnOk result (watched_of self.new feed ≡ true) }
        ensures begins { OnOk result (ended_of self.new feed ≡ false) }
        ensures others { (other : ℕ) → other ≢ feed → watched_of self.new other ≡ watched_of self.old other }
        ensures others_ended { (other : ℕ) → other ≢ feed → ended_of self.new other ≡ ended_of self.old other }
        ensures unwatched { OnErr result ((other : ℕ) → watched_of self.new other ≡ watched_of self.old other) }
        ensures unended { OnErr result ((other : ℕ) → ended_of self.new other ≡ ended_of self.old other) }
        ensures answers { answers_of self.new ≡ answers_of self.old }
        ensures at { OnOk result (watched_at_of self.new feed ≡ length (answers_of self.old)) }
        ensures others_at { (other : ℕ) → other ≢ feed
            → watched_at_of self.new other ≡ watched_at_of self.old other }
        ensures no_at { OnErr result ((other : ℕ) → watched_at_of self.new other ≡ watched_at_of self.old other) }
        ensures path { OnOk result (watches_of self.new ≡ watches_of self.old ++ (feed, path.now) ∷ []) }
        ensures no_path { OnErr result (watches_of self.new ≡ watches_of self.old) }
        ensures listens { listens_of self.new ≡ listens_of self.old }
        ensures addresses { addresses_of self.new ≡ addresses_of self.old }
        ensures ok { OnOk result (faults_of self.new ≡ faults_of self.old) }
        ensures failed { OnErr result (Rises (faults_of self.old) (faults_of self.new)) }
        ensures faults { faults_of self.old ≤ faults_of self.new }

        ensures one_fault { OnErr result (faults_of self.new ≡ next_count (faults_of self.old)) }
        ensures planned { Contains (failing_watches self.old) (watch_calls_of self.old) → IsErr result }
        ensures past_room { watch_room_of self.old ≤ length (watches_of self.old) → IsErr result }
        ensures past_bytes { byte_room_of self.old < used_of self.old + length path.now → IsErr result }
        ensures else_only { OnErr result (Contains (failing_watches self.old) (watch_calls_of self.old)
            ⊎ (watch_room_of self.old ≤ length (watches_of self.old))
            ⊎ (byte_room_of self.old < used_of self.old + length path.now)) }
        ensures used { OnOk result (used_of self.new ≡ used_of self.old + length path.now) }
        ensures unused { OnErr result (used_of self.new ≡ used_of self.old) }
        ensures left { left_of self.new ≡ left_of self.old }
        ensures watch_calls { watch_calls_of self.new ≡ next_count (watch_calls_of self.old) }
        ensures polls { polls_of self.new ≡ polls_of self.old }
        ensures plan { IsSamePlan self.old self.new }
    {
        let planned = self.watches.next();
        let fits = self.paths.len() < self.paths.text_room()
            && has_room(&self.paths, &self.addresses, path.len());
        if planned || !fits || self.paths.push(feed, path).is_err() {
            self.faults = self.faults.saturating_add(1);
            return Err(Failed);
        }
        begin(&mut self.feeds, feed, self.answers.given());
        Ok(())
    }

    fn is_watched(&self, feed: u32) -> bool {
        is_watched(&self.feeds, feed)
    }

    // What each poller promises, and then: it fails just where that is planned, or after 2^64 - 1
    // answers; else the next answer is given, without the tells that may not be given.
    fn poll(&mut self, wait_ms: u32, into: &mut Told) -> Result<(), Failed>
        requires { (feed : ℕ) × (watched_of self.old feed ≡ true) }
        ensures told { OnOk result (AreTells (watched_of self.old) (ended_of self.old) into.new) }
        ensures few { OnOk result (length into.new ≤ MAX_TELLS) }
        ensures ended { OnOk result ((feed : ℕ)
            → ended_of self.new feed ≡ ended_by (ended_of self.old) into.new feed) }
        ensures unended { OnErr result ((feed : ℕ) → ended_of self.new feed ≡ ended_of self.old feed) }
        ensures kept { OnErr result (into.new ≡ into.old) }
        ensures watched { (feed : ℕ) → watched_of self.new feed ≡ watched_of self.old feed }
        ensures answers { OnOk result (answers_of self.new
            ≡ answers_after (answers_of self.old) wait_ms into.new) }
        ensures no_answer { OnErr result (answers_of self.new ≡ answers_of self.old) }
        ensures watched_at { (feed : ℕ) → watched_at_of self.new feed ≡ watched_at_of self.old feed }
        ensures watches { watches_of self.new ≡ watches_of self.old }
        ensures listens { listens_of self.new ≡ listens_of self.old }
        ensures addresses { addresses_of self.new ≡ addresses_of self.old }
        ensures ok { OnOk result (faults_of self.new ≡ faults_of self.old) }
        ensures failed { OnErr result (Rises (faults_of self.old) (faults_of self.new)) }
        ensures faults { faults_of self.old ≤ faults_of self.new }

        ensures one_fault { OnErr result (faults_of self.new ≡ next_count (faults_of self.old)) }
        ensures planned { Contains (failing_polls self.old) (polls_of self.old) → IsErr result }
        ensures only_planned { OnErr result (Contains (failing_polls self.old) (polls_of self.old)
            ⊎ (length (answers_of self.old) ≡ 2 ^ 64 - 1)) }
        ensures given { OnOk result (into.new
            ≡ allowed_of (watched_of self.old) (ended_of self.old) (first_of (left_of self.old))) }
        ensures left { OnOk result (left_of self.new ≡ drop 1 (left_of self.old)) }
        ensures all_left { OnErr result (left_of self.new ≡ left_of self.old) }
        ensures polls { polls_of self.new ≡ next_count (polls_of self.old) }
        ensures watch_calls { watch_calls_of self.new ≡ watch_calls_of self.old }
        ensures used { used_of self.new ≡ used_of self.old }
        ensures plan { IsSamePlan self.old self.new }
    {
        if self.polls.next() || self.answers.given() == usize::MAX {
            self.faults = self.faults.saturating_add(1);
            return Err(Failed);
        }
        give_next(&self.answers, &mut self.feeds, into);
        let kept = wait_ms > 0 || !into.is_empty_answer();
        self.answers.give(into, kept);
        Ok(())
    }
}
