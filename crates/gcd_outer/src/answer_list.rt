// The answers of a poller in memory: those that are still to be given, and those that were given.
ghost use Rattle.std.specs.Prelude.{◌≡◌, ◌<◌, ◌-◌, ◌^◌, ◌++◌, ◌∷◌, [], length, drop, MatchOption, if◌then◌else◌};
ghost use Rattle.gcd_outer.specs.Answers.{first_of};

use crate::told::Told;
use std::marker::Model;

// The answers to be given are those of `answers` from `next` on. Those that were given are the first
// `kept` of `answers`, which lie before `next`, and then, after the last, empty ones, so that there are
// `given` of them.
#[derive(Drop)]
pub(crate) struct AnswerList {
    answers: Vec<Told>,
    next: usize,
    kept: usize,
    given: usize,
}

impl Model for AnswerList {
    ghost use Rattle.std.specs.Prelude.{length};
    ghost use Rattle.gcd_outer.specs.Answers.{Answers, answers_left, answers_given, IsInOrder};

    ghost Value = { Answers };

    ghost view = { λ a. record { left = answers_left a.answers.items a.next; given = answers_given a.answers.items a.kept a.given } };

    ghost invariant = { λ a. IsInOrder (length a.answers.items) a.next a.kept a.given };
}

impl AnswerList {
    pub(crate) fn new(answers: Vec<Told>) -> Self
        ensures left { result.left ≡ answers.items }
        ensures given { result.given ≡ [] }
    {
        AnswerList {
            answers,
            next: 0,
            kept: 0,
            given: 0,
        }
    }

    // How many answers were given.
    pub(crate) fn given(&self) -> usize
        ensures { result ≡ length self.now.given }
    {
        self.given
    }

    // The next answer to be given.
    pub(crate) fn first(&self) -> Option<&Told>
        ensures { MatchOption result (self.now.left ≡ []) (λ t. first_of self.now.left ≡ t.now) }
    {
        self.answers.get(self.next)
    }

    // The next answer is given, as `told`, and is kept or not.
    pub(crate) fn give(&mut self, told: &Told, kept: bool)
        requires room { length self.old.given < 2 ^ 64 - 1 }
        requires none { self.old.left ≡ [] → told.now ≡ [] }
        ensures left { self.new.left ≡ drop 1 self.old.left }
        ensures given { self.new.given ≡ (if kept then self.old.given ++ told.now ∷ [] else self.old.given) }
    {
        if self.next < self.answers.len() {
            self.next += 1;
            if kept {
                self.answers[self.kept].copy_from(told);
                self.kept += 1;
                self.given += 1;
            }
        } else if kept {
            self.given += 1;
        }
    }
}
