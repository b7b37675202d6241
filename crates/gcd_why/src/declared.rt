// Where a script declares something.

use std::str;

/// The number of the first line that begins with these two words; 0 if there is none.
pub fn line_of(text: &[u8], first: &str, second: &str) -> u32 {
    let text = str::from_utf8(text).unwrap_or("");
    let mut number = 0u32;
    for line in text.lines() {
        number = number.saturating_add(1);
        let mut words = line.split_whitespace();
        if words.next() == Some(first) && words.next() == Some(second) {
            return number;
        }
    }
    0
}
