// Lines of a text, and words of a line.
ghost use Rattle.std.specs.Prelude.{◌≡◌, ◌==◌, ◌<◌, [], ◌∷◌, ◌++◌, true, false, length, map, position, IfSome, IfNone, MatchOption};
ghost use Rattle.gcd_text.specs.Fields.{IsWithout};
ghost use Rattle.gcd_text.specs.Limits.{max_words};
ghost use Rattle.gcd_text.specs.Lines.{lines_of, is_line_byte, is_printable, unless_empty, words_of};

use crate::limits::MAX_WORDS;
use arrayvec::ArrayVec;
use memchr::memchr;

// LLVM tests so many bytes at once.
const PIECE: usize = 16;

// The place of the first byte 10.
fn end_of_line(text: &[u8]) -> Option<usize>
    ensures { result ≡ position (λ c. c == 10) text.now }
{
    memchr(b'\n', text)
}

/// The first line of a text, without the byte 10 at its end, and what follows; None exactly where the text is empty.
pub fn next_line(text: &[u8]) -> Option<(&[u8], &[u8])>
    ensures { MatchOption result
        (lines_of text.now ≡ [])
        (λ cut. (lines_of text.now ≡ cut.0.now ∷ lines_of cut.1.now) × (length cut.1.now < length text.now)) }
{
    if text.is_empty() {
        return None;
    }
    match end_of_line(text) {
        Some(end) => Some((&text[..end], &text[end + 1..])),
        None => Some((text, &[])),
    }
}

fn is_line_byte(c: u8) -> bool
    ensures { result ≡ is_line_byte c }
{
    b' ' <= c && c <= b'~'
}

// The loop has no early exit, so that LLVM tests several bytes at a time.
fn is_short_printable(line: &[u8]) -> bool
    ensures { result ≡ is_printable line.now }
{
    let mut so_far = true;
    for c in line {
        so_far = so_far & is_line_byte(*c);
    }
    so_far
}

// Whether each byte of the piece can stand in a line. LLVM tests the piece without a loop.
fn is_piece_printable(piece: &[u8; PIECE]) -> bool
    ensures { result ≡ is_printable piece.now }
{
    let mut so_far = true;
    for c in piece {
        so_far = so_far & is_line_byte(*c);
    }
    so_far
}

// Whether each byte of the line can stand in one. It tests whole pieces from the start, and the last bytes as one more piece, which may
// overlap the others.
fn is_printable(line: &[u8]) -> bool
    ensures { result ≡ is_printable line.now }
{
    let Some(last) = line.last_chunk::<PIECE>() else {
        return is_short_printable(line);
    };
    let mut so_far = is_piece_printable(last);
    let mut rest = line;
    while let Some((piece, more)) = rest.split_first_chunk::<PIECE>() {
        so_far = so_far & is_piece_printable(piece);
        rest = more;
    }
    so_far
}

/// The line as text; None exactly where it has a byte other than 32 to 126.
pub fn printable(line: &[u8]) -> Option<&str>
    ensures { MatchOption result
        (is_printable line.now ≡ false)
        (λ text. (is_printable line.now ≡ true) × (text.now ≡ line.now)) }
{
    if is_printable(line) {
        // These bytes are ASCII, so what the call asks is proved, and the line is not looked at twice.
        Some(unsafe { str::from_utf8_unchecked(line) })
    } else {
        None
    }
}

// The place of the first space among these bytes. Words are short, so a vector search would cost more than it saves. A turn looks at four
// bytes, which halves the cost.
fn space_in(bytes: &[u8]) -> Option<usize>
    ensures { result ≡ position (λ c. c == 32) bytes.now }
{
    let mut at = 0;
    'four: while bytes.len() - at >= 4 {
        if bytes[at] == b' ' {
            return Some(at);
        }
        if bytes[at + 1] == b' ' {
            return Some(at + 1);
        }
        if bytes[at + 2] == b' ' {
            return Some(at + 2);
        }
        if bytes[at + 3] == b' ' {
            return Some(at + 3);
        }
        at += 4;
    }
    'one: while at < bytes.len() {
        if bytes[at] == b' ' {
            return Some(at);
        }
        at += 1;
    }
    None
}

// The place of the first space of a text.
fn first_space(line: &str) -> Option<usize>
    ensures { result ≡ position (λ c. c == 32) line.now }
{
    space_in(line.as_bytes())
}

// What stands before the first space, and what follows it; None exactly where there is no space.
fn cut_word(line: &str) -> Option<(&str, &str)>
    ensures cut { IfSome result (λ parts. line.now ≡ parts.0.now ++ 32 ∷ parts.1.now) }
    ensures first { IfSome result (λ parts. IsWithout 32 parts.0.now) }
    ensures uncut { IfNone result (IsWithout 32 line.now) }
{
    match first_space(line) {
        Some(place) => Some((&line[..place], &line[place + 1..])),
        None => None,
    }
}

// Adds a word that is not empty; false exactly where there is no room for it.
fn push_word<'a>(words: &mut ArrayVec<&'a str, MAX_WORDS>, word: &'a str) -> bool
    ensures pushed { result ≡ true → map (λ w. w.now) words.new.items ≡ map (λ w. w.now) words.old.items ++ unless_empty word.now }
    ensures full { result ≡ false → max_words < length (map (λ w. w.now) words.old.items ++ unless_empty word.now) }
{
    if word.is_empty() {
        return true;
    }
    if words.is_full() {
        return false;
    }
    words.push(word);
    true
}

/// The first word of a line, and what follows the space after it; None exactly where the line has no word.
pub fn first_word(line: &str) -> Option<(&str, &str)>
    ensures { MatchOption result
        (words_of line.now ≡ [])
        (λ cut. words_of line.now ≡ cut.0.now ∷ words_of cut.1.now) }
{
    let mut rest = line;
    while let Some((word, more)) = cut_word(rest) {
        if !word.is_empty() {
            return Some((word, more));
        }
        rest = more;
    }
    if rest.is_empty() {
        return None;
    }
    Some((rest, ""))
}

/// The words of a line, which one or more spaces separate; None exactly where there are more than [`MAX_WORDS`].
pub fn words(line: &str) -> Option<ArrayVec<&str, MAX_WORDS>>
    ensures all { IfSome result (λ words. map (λ word. word.now) words.items ≡ words_of line.now) }
    ensures many { IfNone result (max_words < length (words_of line.now)) }
{
    let mut words = ArrayVec::new();
    let mut rest = line;
    while let Some((word, more)) = cut_word(rest) {
        if !push_word(&mut words, word) {
            return None;
        }
        rest = more;
    }
    if !push_word(&mut words, rest) {
        return None;
    }
    Some(words)
}
