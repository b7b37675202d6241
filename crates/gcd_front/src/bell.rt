// What wakes who takes the jobs.
use std::sync::Wait;
use std::sync::atomic::{AtomicBool, Ordering};
use std::thread::Parker;
use std::time::Duration;

// One thread sleeps by it, while others ring. Where nobody listens a ring is one load.
#[derive(Drop)]
pub(crate) struct Bell {
    parker: Parker,
    is_heard: AtomicBool,
}

impl Bell {
    // Nobody listens.
    pub(crate) fn new() -> Bell {
        Bell {
            parker: Parker::new(),
            is_heard: AtomicBool::new(false),
        }
    }

    // From now on a ring ends the sleep, or the next one.
    pub(crate) fn listen(&self) {
        self.is_heard.store(true, Ordering::SeqCst);
    }

    // No more.
    pub(crate) fn ignore(&self) {
        self.is_heard.store(false, Ordering::SeqCst);
    }

    // Wakes who listens.
    #[inline(always)]
    pub(crate) fn ring(&self) {
        if self.is_heard.load(Ordering::SeqCst) {
            self.parker.unpark();
        }
    }

    // Sleeps so long at most, and no longer than to the first ring since the last sleep that who sleeps listened to.
    pub(crate) fn sleep<R: Wait>(&self, rt: &R, longest: Duration) {
        self.parker.park_timeout(rt, longest);
    }
}
