// Bytes that go out.
ghost use Rattle.std.specs.Prelude.{◌≡◌, ◌≤◌, ◌<◌, ◌++◌, ℕ, Bool, true, length, take, OnOk, OnErr, IfOk};
ghost use Rattle.gcd_outer.specs.Outside.{Rises, SinkState};

/// A call of a sink failed, and the sink counted it.
#[derive(Clone, Copy, Debug, PartialEq, Eq)]
pub struct Failed;

/// Takes bytes, one piece after another.
pub trait Sink {
    /// Whether it tells what it took. If it does not, `taken` of its state claims nothing.
    ghost tells: { Bool };

    /// What it took, and how often it has failed.
    ghost state: { Self → SinkState };

    /// Takes a front of the piece and says how many bytes that is: at least one, if the piece is not
    /// empty. `Failed` only where its count rose; then it took nothing.
    fn write(&mut self, piece: &[u8]) -> Result<usize, Failed>
        ensures some { 0 < length piece.now → IfOk result (λ n. 0 < n) }
        ensures within { IfOk result (λ n. n ≤ length piece.now) }
        ensures taken { tells ≡ true
            → IfOk result (λ n. (state self.new).taken ≡ (state self.old).taken ++ take n piece.now) }
        ensures nothing { tells ≡ true → OnErr result ((state self.new).taken ≡ (state self.old).taken) }
        ensures failed { OnErr result (Rises (state self.old).faults (state self.new).faults) }
        ensures faults { (state self.old).faults ≤ (state self.new).faults };
}

/// Writes the whole text, by as many writes as the sink wants. `Failed` where one of them failed: then
/// the sink took a proper front of the text.
pub fn write_whole<K: Sink>(out: &mut K, text: &[u8]) -> Result<(), Failed>
    ensures ok { K.tells ≡ true → OnOk result ((K.state out.new).taken ≡ (K.state out.old).taken ++ text.now) }
    ensures front { K.tells ≡ true
        → OnErr result ((n : ℕ) × (n < length text.now) × ((K.state out.new).taken ≡ (K.state out.old).taken ++ take n text.now)) }
    ensures failed { OnErr result (Rises (K.state out.old).faults (K.state out.new).faults) }
    ensures faults { (K.state out.old).faults ≤ (K.state out.new).faults }
{
    let mut done = 0;
    while done < text.len() {
        let count = out.write(&text[done..])?;
        done += count;
    }
    Ok(())
}
