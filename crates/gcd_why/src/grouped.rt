// Numbers with commas.

use itoa::Buffer;
use std::fmt;

/// A number in decimal, with a comma before each three digits from the right, as `60,000`.
#[derive(Clone, Copy)]
pub struct Grouped(pub u64);

impl fmt::Display for Grouped {
    fn fmt<W: fmt::Write>(&self, f: &mut fmt::Formatter<W>) -> fmt::Result {
        let mut buffer = Buffer::new();
        let digits = buffer.format(self.0);
        for (place, digit) in digits.chars().enumerate() {
            if place > 0 && digits.len().saturating_sub(place) % 3 == 0 {
                f.write_str(",")?;
            }
            f.write_char(digit)?;
        }
        Ok(())
    }
}
