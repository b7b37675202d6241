// Standard output as a sink.
ghost use Rattle.std.specs.Prelude.{◌≡◌, [], false};

use gcd_outer::{Failed, Sink};

/// Standard output. Each write goes to the system at once. It tells nothing. Whatever fails in the
/// system is counted as its fault.
#[derive(Drop)]
pub struct StdoutSink<'a, R: Print> {
    rt: &'a R,
    faults: u64,
}

impl<'a, R: Print> StdoutSink<'a, R> {
    /// A sink that has not failed yet.
    pub fn new(rt: &'a R) -> Self
        ensures { (⟦<StdoutSink<'a, R> as Sink>⟧.state result).faults ≡ 0 }
    {
        StdoutSink { rt, faults: 0 }
    }
}

impl<'a, R: Print> Sink for StdoutSink<'a, R> {
    ghost tells = { false };

    ghost state = { λ s. record { taken = []; faults = s.faults } };

    fn write(&mut self, piece: &[u8]) -> Result<usize, Failed> {
        if piece.is_empty() {
            return Ok(0);
        }
        match self.rt.write_some(piece) {
            Ok(count) if count > 0 => Ok(count),
            _ => {
                self.faults = self.faults.saturating_add(1);
                Err(Failed)
            }
        }
    }
}
