// Tables of words.

/// What the first row of that word has; None if no row is of the word.
pub fn pick<T: Copy>(rows: &[(&str, T)], word: &str) -> Option<T> {
    let row = rows.iter().find(|row| row.0 == word)?;
    Some(row.1)
}
