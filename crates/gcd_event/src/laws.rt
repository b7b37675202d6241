// What holds of every event's word. Each function's contract is a law; its body is empty.
ghost use Rattle.std.specs.Prelude.{◌≡◌, ◌<◌, ◌^◌};
ghost use Rattle.gcd_event.specs.declared.event.Event.{Event};
ghost use Rattle.gcd_event.specs.Fits.{IsFitting};
ghost use Rattle.gcd_event.specs.Words.{word_of};

/// Two fitting events that have one word are one event (this project's own rule).
pub fn words_are_injective()
    ensures { (a b : Event) → IsFitting a → IsFitting b → word_of a ≡ word_of b → a ≡ b }
{}

/// The word of a fitting event is not 0, and its highest four of 64 bits are 0 (this project's own rule).
#[tactic(auto, using(crate::proofs::WordLemmas::word_bounds))]
pub fn words_are_bounded()
    ensures above { (e : Event) → IsFitting e → 0 < word_of e }
    ensures below { (e : Event) → IsFitting e → word_of e < 2 ^ 60 }
{}
