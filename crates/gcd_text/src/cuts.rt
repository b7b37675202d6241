// Parts of a text between single bytes.
ghost use Rattle.std.specs.Prelude.{◌≡◌, ◌==◌, ◌<◌, ◌∷◌, ◌++◌, length, map, position, IfSome, IfNone};
ghost use Rattle.gcd_text.specs.Fields.{IsWithout, fields_of};
ghost use Rattle.gcd_text.specs.Limits.{max_fields};

use crate::limits::MAX_FIELDS;
use arrayvec::ArrayVec;

// The place of the first such byte.
fn place_of(text: &[u8], byte: u8) -> Option<usize>
    ensures { result ≡ position (λ c. c == byte) text.now }
{
    text.iter().position(|c| *c == byte)
}

/// What stands before the first such byte of a text, and what follows it; None exactly where the text has no such byte.
pub fn cut_at(text: &[u8], byte: u8) -> Option<(&[u8], &[u8])>
    ensures cut { IfSome result (λ parts. text.now ≡ parts.0.now ++ byte ∷ parts.1.now) }
    ensures first { IfSome result (λ parts. IsWithout byte parts.0.now) }
    ensures uncut { IfNone result (IsWithout byte text.now) }
{
    match place_of(text, byte) {
        Some(place) => Some((&text[..place], &text[place + 1..])),
        None => None,
    }
}

/// The fields of a line, between which exactly one space stands; None exactly where there are more than [`MAX_FIELDS`].
pub fn fields(line: &[u8]) -> Option<ArrayVec<&[u8], MAX_FIELDS>>
    ensures all { IfSome result (λ fields. map (λ field. field.now) fields.items ≡ fields_of line.now) }
    ensures many { IfNone result (max_fields < length (fields_of line.now)) }
{
    let mut fields = ArrayVec::new();
    let mut rest = line;
    while let Some((field, more)) = cut_at(rest, b' ') {
        if fields.is_full() {
            return None;
        }
        fields.push(field);
        rest = more;
    }
    if fields.is_full() {
        return None;
    }
    fields.push(rest);
    Some(fields)
}
