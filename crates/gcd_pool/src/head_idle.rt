// How worker 0 of a team passes time between two turns.
use crate::front_idle::FrontIdle;
use crate::idle::Idle;
use gcd_front::Front;
use std::sync::Wait;

// As every worker does. But beside senders it yields for longer, and what they send ends its sleep.
#[derive(Drop)]
pub(crate) struct HeadIdle {
    idle: Idle,
    beside: FrontIdle,
}

impl HeadIdle {
    // Nothing has been waited for yet.
    pub(crate) fn new() -> HeadIdle {
        HeadIdle {
            idle: Idle::new(),
            beside: FrontIdle::new(),
        }
    }

    // A pause beside senders.
    fn pause_beside_senders<X: Drop, R: Wait>(&mut self, rt: &R, front: &Front<X>) {
        if self.beside.is_at_sleep(front) {
            if let Some(sleep) = self.idle.spin() {
                front.sleep(rt, sleep);
            }
        }
    }

    // Something came: the next pause is the first again.
    #[inline(always)]
    pub(crate) fn reset<X: Drop>(&mut self, front: &Front<X>) {
        self.beside.reset(front);
        self.idle.reset();
    }

    // Nothing came.
    #[inline(always)]
    pub(crate) fn pause<X: Drop, R: Wait>(&mut self, rt: &R, front: &Front<X>) {
        if front.senders() == 0 {
            self.idle.pause(rt);
        } else {
            self.pause_beside_senders(rt, front);
        }
    }
}
