// An outside that tells nothing.
ghost use Rattle.std.specs.Prelude.{◌≡◌, ℕ, false};

use gcd_outer::{Failed, MAX_FEEDS, Poller, Told};
use gcd_sets::SmallSet;

// A poller that tells nothing and never fails. It takes no memory.
#[derive(Drop)]
pub struct SilentPoller {
    watched: SmallSet,
}

impl SilentPoller {
    // A poller that watches no feed.
    pub fn new() -> SilentPoller
        ensures { (feed : ℕ) → (⟦<SilentPoller as Poller>⟧.state result).watched feed ≡ false }
    {
        SilentPoller {
            watched: SmallSet::new(),
        }
    }
}

impl Poller for SilentPoller {
    ghost use Rattle.gcd_workers.specs.Silent.{silent_state};

    ghost tells = { false };

    ghost state = { silent_state };

    fn listen(&mut self, _addr: &str) -> Result<(), Failed> {
        Ok(())
    }

    fn watch(&mut self, feed: u32, _path: &str) -> Result<(), Failed> {
        self.watched.set(feed);
        Ok(())
    }

    fn is_watched(&self, feed: u32) -> bool {
        feed < MAX_FEEDS && self.watched.has(feed)
    }

    fn poll(&mut self, _wait_ms: u32, into: &mut Told) -> Result<(), Failed> {
        into.clear();
        Ok(())
    }
}
