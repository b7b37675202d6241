// What holds of journals. Each function's contract is a law; its body is empty.
ghost use Rattle.std.specs.Prelude.{◌≡◌, ◌≤◌, ◌<◌, ◌^◌, ◌++◌, ◌∷◌, [], ℕ, List, None, length};
ghost use Rattle.gcd_plan.specs.PlanView.{PlanView};
ghost use Rattle.gcd_plan.specs.Validity.{IsPlan};
ghost use Rattle.gcd_event.specs.declared.event.Event.{Event};
ghost use Rattle.gcd_history.specs.History.{IsLawful};
ghost use Rattle.gcd_history.specs.JournalText.{event_line, journal_text};
ghost use Rattle.gcd_journal.specs.Causes.{IsCausedBy};
ghost use Rattle.gcd_journal.specs.declared.cause.JournalCause.{JournalCause};
ghost use Rattle.gcd_text.specs.Fields.{IsWithout, fields_of};
ghost use Rattle.gcd_journal.specs.Forms.{fault_in};
ghost use Rattle.gcd_journal.specs.Named.{IsLookUp};
ghost use Rattle.gcd_journal.specs.Spelling.{Look};
ghost use Rattle.gcd_journal.specs.Spoken.{AreSpoken, IsSpoken};
ghost use Rattle.gcd_journal.specs.Journals.{IsJournal, IsRefusedAt};
ghost use Rattle.gcd_journal.specs.Judged.{IsFirstBarred};

/// Where a journal may have `most` events, of whatever number below 2 ^ 64: a text is a journal of at most one list of events, and
/// then it has no line at fault; and a text has at most one line that is its first at fault.
pub fn journals_are_read_one_way()
    ensures events { (most : ℕ) (plan : PlanView) (text : List ℕ) (h k : List Event) → most < 2 ^ 64 → IsPlan plan → IsJournal most plan text h → IsJournal most plan text k
        → h ≡ k }
    ensures journal { (most : ℕ) (plan : PlanView) (text : List ℕ) (h : List Event) (line : ℕ) → most < 2 ^ 64 → IsPlan plan → IsJournal most plan text h
        → IsRefusedAt most plan text line → ⊥ }
    ensures line { (most : ℕ) (plan : PlanView) (text : List ℕ) (a b : ℕ) → most < 2 ^ 64 → IsPlan plan → IsRefusedAt most plan text a → IsRefusedAt most plan text b
        → a ≡ b }
{}

/// A text's first line at fault has a cause; and no other one, if a journal may have `most` events, of whatever number below 2 ^ 64.
pub fn refused_lines_have_one_cause()
    ensures some { (most : ℕ) (plan : PlanView) (text : List ℕ) (line : ℕ) → IsPlan plan → IsRefusedAt most plan text line
        → (cause : JournalCause) × IsCausedBy most plan text line cause }
    ensures one { (most : ℕ) (plan : PlanView) (text : List ℕ) (a b : ℕ) (c d : JournalCause) → most < 2 ^ 64 → IsPlan plan → IsCausedBy most plan text a c
        → IsCausedBy most plan text b d → c ≡ d }
{}

/// Nothing is wrong with a line exactly if it is an event's.
pub fn faultless_lines_are_events()
    ensures event { (plan : PlanView) (look : Look) (line : List ℕ) → IsPlan plan → IsLookUp plan look → fault_in look (fields_of line) ≡ None
        → (e : Event) × IsSpoken plan e × (event_line plan e ≡ line ++ 10 ∷ []) }
    ensures faultless { (plan : PlanView) (look : Look) (line : List ℕ) (e : Event) → IsPlan plan → IsLookUp plan look → IsWithout 10 line → IsSpoken plan e
        → event_line plan e ≡ line ++ 10 ∷ [] → fault_in look (fields_of line) ≡ None }
{}

/// What is written of events that have lines is a journal of them, whatever follows it.
pub fn written_journals_are_read()
    ensures { (most : ℕ) (plan : PlanView) (h : List Event) (rest : List ℕ) → AreSpoken plan h → length h ≤ most
        → IsJournal most plan (journal_text plan h ++ rest) h }
{}

/// The events of a lawful history of a valid plan have lines.
pub fn lawful_events_are_spoken()
    ensures { (plan : PlanView) (h : List Event) → IsPlan plan → IsLawful plan h → AreSpoken plan h }
{}

/// Events have at most one that is the first not to be permitted, and lawful ones have none.
pub fn one_event_is_barred_first()
    ensures lawful { (plan : PlanView) (h : List Event) (i : ℕ) → IsLawful plan h → IsFirstBarred plan h i → ⊥ }
    ensures one { (plan : PlanView) (h : List Event) (i j : ℕ) → IsFirstBarred plan h i → IsFirstBarred plan h j → i ≡ j }
{}
