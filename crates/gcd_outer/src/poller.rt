// Who tells how many bytes have come.
ghost use Rattle.std.specs.Prelude.{◌≡◌, ◌≢◌, ◌≤◌, ◌<◌, ◌++◌, ◌∷◌, [], List, ℕ, Bool, true, false, length, OnOk, OnErr};
ghost use Rattle.gcd_outer.specs.declared.limits.TheConstants.{MAX_FEEDS, MAX_TELLS};
ghost use Rattle.gcd_outer.specs.Outside.{Rises, next_count};
ghost use Rattle.gcd_outer.specs.Tells.{AreTells, PollerState, ended_by, answers_after};
ghost use Rattle.gcd_outer.specs.declared.tell.Tell.{Tell};

use crate::sink::Failed;
use crate::told::Told;

/// Reads feeds and tells how many bytes came from each. A feed is the number of its source, below
/// `MAX_FEEDS`. (This project's own rule; a read source of dispatch_source_create(3) is its feed.)
///
/// A feed is watched exactly where a watch of it succeeded. A watch of a feed that is watched already
/// begins it anew with the new path. `Failed` is answered only where the count of faults rose in the
/// call, and a call that answers `Ok` leaves that count as it was. A call that answers `Failed` leaves
/// all else as it was, but for the number of listens.
pub trait Poller {
    /// Whether it tells its answers, watches and listens. Where it doesn't, `answers`, `watched_at`,
    /// `watches`, `listens` and `addresses` of its state claim nothing.
    ghost tells: { Bool };

    /// What it has told so far, what it watches, and how often it has failed.
    ghost state: { Self → PollerState };

    /// From now on connections are accepted at this address. It doesn't wait for others.
    fn listen(&mut self, addr: &str) -> Result<(), Failed>
        ensures watched { (feed : ℕ) → (state self.new).watched feed ≡ (state self.old).watched feed }
        ensures ended { (feed : ℕ) → (state self.new).ended feed ≡ (state self.old).ended feed }
        ensures answers { tells ≡ true → (state self.new).answers ≡ (state self.old).answers }
        ensures watched_at { (feed : ℕ) → tells ≡ true
            → (state self.new).watched_at feed ≡ (state self.old).watched_at feed }
        ensures watches { tells ≡ true → (state self.new).watches ≡ (state self.old).watches }
        ensures listens { tells ≡ true → (state self.new).listens ≡ next_count (state self.old).listens }
        ensures address { tells ≡ true
            → OnOk result ((state self.new).addresses ≡ (state self.old).addresses ++ addr.now ∷ []) }
        ensures no_address { tells ≡ true → OnErr result ((state self.new).addresses ≡ (state self.old).addresses) }
        ensures ok { OnOk result ((state self.new).faults ≡ (state self.old).faults) }
        ensures failed { OnErr result (Rises (state self.old).faults (state self.new).faults) }
        ensures faults { (state self.old).faults ≤ (state self.new).faults };

    /// From now on the feed is watched, and it has not ended. It doesn't wait for others.
    fn watch(&mut self, feed: u32, path: &str) -> Result<(), Failed>
        requires { feed < MAX_FEEDS }
        ensures watches_it { OnOk result ((state self.new).watched feed ≡ true) }
        ensures begins { OnOk result ((state self.new).ended feed ≡ false) }
        ensures others { (other : ℕ) → other ≢ feed → (state self.new).watched other ≡ (state self.old).watched other }
        ensures others_ended { (other : ℕ) → other ≢ feed → (state self.new).ended other ≡ (state self.old).ended other }
        ensures unwatched { OnErr result ((other : ℕ) → (state self.new).watched other ≡ (state self.old).watched other) }
        ensures unended { OnErr result ((other : ℕ) → (state self.new).ended other ≡ (state self.old).ended other) }
        ensures answers { tells ≡ true → (state self.new).answers ≡ (state self.old).answers }
        ensures at { tells ≡ true → OnOk result ((state self.new).watched_at feed ≡ length (state self.old).answers) }
        ensures others_at { (other : ℕ) → tells ≡ true → other ≢ feed
            → (state self.new).watched_at other ≡ (state self.old).watched_at other }
        ensures no_at { tells ≡ true
            → OnErr result ((other : ℕ) → (state self.new).watched_at other ≡ (state self.old).watched_at other) }
        ensures path { tells ≡ true
            → OnOk result ((state self.new).watches ≡ (state self.old).watches ++ (feed, path.now) ∷ []) }
        ensures no_path { tells ≡ true → OnErr result ((state self.new).watches ≡ (state self.old).watches) }
        ensures listens { tells ≡ true → (state self.new).listens ≡ (state self.old).listens }
        ensures addresses { tells ≡ true → (state self.new).addresses ≡ (state self.old).addresses }
        ensures ok { OnOk result ((state self.new).faults ≡ (state self.old).faults) }
        ensures failed { OnErr result (Rises (state self.old).faults (state self.new).faults) }
        ensures faults { (state self.old).faults ≤ (state self.new).faults };

    /// Whether the feed is watched.
    fn is_watched(&self, feed: u32) -> bool
        ensures { result ≡ (state self.now).watched feed };

    /// What came from the watched feeds since they were last told of, in at most `MAX_TELLS` tells,
    /// after a wait of at most about `wait_ms` milliseconds where nothing had come. It is one of the calls that wait
    /// for others. After `Ok`, `into` is this answer and nothing else; after `Failed` it is as it was.
    fn poll(&mut self, wait_ms: u32, into: &mut Told) -> Result<(), Failed>
        requires { (feed : ℕ) × ((state self.old).watched feed ≡ true) }
        ensures told { OnOk result (AreTells (state self.old).watched (state self.old).ended into.new) }
        ensures few { OnOk result (length into.new ≤ MAX_TELLS) }
        ensures ended { OnOk result (
            (feed : ℕ) → (state self.new).ended feed ≡ ended_by (state self.old).ended into.new feed) }
        ensures unended { OnErr result ((feed : ℕ) → (state self.new).ended feed ≡ (state self.old).ended feed) }
        ensures kept { OnErr result (into.new ≡ into.old) }
        ensures watched { (feed : ℕ) → (state self.new).watched feed ≡ (state self.old).watched feed }
        ensures answers { tells ≡ true
            → OnOk result ((state self.new).answers ≡ answers_after (state self.old).answers wait_ms into.new) }
        ensures no_answer { tells ≡ true → OnErr result ((state self.new).answers ≡ (state self.old).answers) }
        ensures watched_at { (feed : ℕ) → tells ≡ true
            → (state self.new).watched_at feed ≡ (state self.old).watched_at feed }
        ensures watches { tells ≡ true → (state self.new).watches ≡ (state self.old).watches }
        ensures listens { tells ≡ true → (state self.new).listens ≡ (state self.old).listens }
        ensures addresses { tells ≡ true → (state self.new).addresses ≡ (state self.old).addresses }
        ensures ok { OnOk result ((state self.new).faults ≡ (state self.old).faults) }
        ensures failed { OnErr result (Rises (state self.old).faults (state self.new).faults) }
        ensures faults { (state self.old).faults ≤ (state self.new).faults };
}
