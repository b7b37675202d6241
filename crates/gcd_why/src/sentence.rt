// One sentence, and where it belongs.
ghost use Rattle.std.specs.Prelude.{◌≡◌, IfOk};

use gcd_cause::Shown;
use std::alloc::{AllocError, Global};
use std::fmt;

/// A sentence on a line of a file, as the caller named it. Line 0 is the file as a whole.
#[derive(Drop)]
pub struct Sentence<'a> {
    pub file: &'a str,
    pub line: u32,
    pub text: String,
}

impl<'a> Sentence<'a> {
    /// The sentence of what is said, on that line of that file. An `Err` comes only where memory runs out.
    pub fn of<T: fmt::Display>(
        alloc: Global,
        file: &'a str,
        line: u32,
        said: T,
    ) -> Result<Sentence<'a>, AllocError>
    where
        T: Drop,
        ensures file { IfOk result (λ s. s.file.now ≡ file.now) }
        ensures line { IfOk result (λ s. s.line ≡ line) }
    {
        let text = format!(in alloc; "{said}")?;
        Ok(Sentence { file, line, text })
    }
}

impl<'a> fmt::Display for Sentence<'a> {
    fn fmt<W: fmt::Write>(&self, f: &mut fmt::Formatter<W>) -> fmt::Result {
        let file = Shown(self.file);
        let line = self.line;
        let text = self.text.as_str();
        if line == 0 {
            write!(f, "{file}: {text}")
        } else {
            write!(f, "{file}:{line}: {text}")
        }
    }
}
