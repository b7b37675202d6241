// The senders of a run, in threads that are no workers.
ghost use Rattle.std.specs.Prelude.{◌≡◌, ◌<◌, ◌+◌, ◌^◌, [], All, length};
ghost use Rattle.gcd_front.specs.Fronts.{IsMouthOf, new_mouths};
ghost use Rattle.gcd_front.specs.Views.{mouth_of, with_job};
ghost use Rattle.gcd_commands.specs.Senders.{EachSends, IsOpen, Sends, told_by};

use crate::front_job::Told;
use gcd_front::{Front, MAX_SENDERS, Mouth};
use gcd_workers::Callers;
use std::sync::Wait;
use std::thread::{Threads, for_each_mut};

/// Who hands in jobs: so many senders, at least 1, each its share of the jobs for so many blocks of an intake.
#[derive(Clone, Copy)]
pub struct Senders {
    pub count: u8,
    pub blocks: u32,
}

/// Senders of which each hands in so many jobs.
#[derive(Drop)]
pub struct Shares {
    pub share: u16,
}

// Sends the job again until it is accepted.
fn send<R: Wait>(rt: &R, front: &Front<Told>, mouth: &mut Mouth<Told>, job: Told)
    requires mouth { IsMouthOf front.now mouth.old }
    requires count { length mouth.old.sent + 1 < 2 ^ 32 }
    ensures { mouth.new ≡ with_job mouth.old job }
{
    for _ in rt.forever() {
        if mouth.send(rt, front, job).is_ok() {
            return;
        }
    }
    unreachable!()
}

// Sends so many jobs, in order.
fn send_all<R: Wait>(rt: &R, front: &Front<Told>, mouth: &mut Mouth<Told>, share: u16)
    requires mouth { IsMouthOf front.now mouth.old }
    requires none { mouth.old.sent ≡ [] }
    ensures { mouth.new ≡ mouth_of mouth.old.front mouth.old.sender (told_by mouth.old.sender share) }
{
    let first = 1000 * u64::from(mouth.sender());
    for k in 0..share {
        send(rt, front, mouth, Told(first + u64::from(k + 1)));
    }
}

// Each sender sends so many jobs in a thread of its own, or after the one before it if the system makes none.
fn send_each<R: Threads + Wait + Sync>(
    rt: &R,
    front: &Front<Told>,
    share: u16,
    mouths: &mut [Mouth<Told>],
)
    requires { All (IsOpen front.now) mouths.old }
    ensures { EachSends share mouths.old mouths.new }
{
    let each = |_place: usize, mouth: &mut Mouth<Told>|
        requires { IsOpen front.now mouth.old }
        ensures { Sends share mouth.old mouth.new }
    { send_all(rt, front, mouth, share) };
    for_each_mut(rt, mouths, usize::from(MAX_SENDERS), &each);
}

impl Callers<Told> for Shares {
    ghost use Rattle.gcd_commands.specs.Senders.{HaveSent};

    ghost called = { λ was is mouths. HaveSent was.share mouths };

    fn call<R: Threads + Wait + Sync>(
        &mut self,
        rt: &R,
        front: &Front<Told>,
        mouths: &mut [Mouth<Told>],
    ) {
        send_each(rt, front, self.share, mouths);
    }
}
