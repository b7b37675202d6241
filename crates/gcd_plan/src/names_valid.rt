// Whether names and paths are well formed.
ghost use Rattle.std.specs.Prelude.{◌≡◌};
ghost use Rattle.std.specs.List.{list_all};
ghost use Rattle.gcd_plan.specs.Names.{is_letter, is_name_byte, begins_with_letter, is_name, is_word_byte, is_path};

use crate::limits::{MAX_NAME_BYTES, MAX_PATH_BYTES};

fn is_letter(c: u8) -> bool
    ensures { result ≡ is_letter c }
{
    c >= b'a' && c <= b'z'
}

fn is_name_byte(c: u8) -> bool
    ensures { result ≡ is_name_byte c }
{
    is_letter(c) || (c >= b'0' && c <= b'9') || c == b'_'
}

fn begins_with_letter(name: &[u8]) -> bool
    ensures { result ≡ begins_with_letter name.now }
{
    match name {
        [] => false,
        [first, ..] => is_letter(*first),
    }
}

fn all_name_bytes(name: &[u8]) -> bool
    ensures { result ≡ list_all is_name_byte name.now }
{
    name.iter().all(|c| is_name_byte(*c))
}

/// Whether it is a name: 1 to [`MAX_NAME_BYTES`] small letters, digits and `_`, the first a letter (this project's own rule).
pub fn is_name(name: &[u8]) -> bool
    ensures { result ≡ is_name name.now }
{
    begins_with_letter(name) && name.len() <= MAX_NAME_BYTES as usize && all_name_bytes(name)
}

fn is_word_byte(c: u8) -> bool
    ensures { result ≡ is_word_byte c }
{
    c >= 33 && c <= 126
}

fn all_word_bytes(path: &[u8]) -> bool
    ensures { result ≡ list_all is_word_byte path.now }
{
    path.iter().all(|c| is_word_byte(*c))
}

/// Whether it is a path: a word of 1 to [`MAX_PATH_BYTES`] bytes (this project's own rule).
pub fn is_path(path: &[u8]) -> bool
    ensures { result ≡ is_path path.now }
{
    !path.is_empty() && path.len() <= MAX_PATH_BYTES as usize && all_word_bytes(path)
}
