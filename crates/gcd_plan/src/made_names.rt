// Whether blocks are as the intake and the strips make them.
ghost use Rattle.std.specs.Prelude.{◌≡◌, ◌↔◌, IsTrue, ◌∷◌, ◌++◌, codes, decimal, string_bytes};
ghost use Rattle.gcd_plan.specs.Made.{intake_block, strip_block};
ghost use Rattle.gcd_plan.specs.PlanView.{blk_view, strip_view};

use crate::parts::{BlkPart, StripPart};

// Whether the word writes the number in decimal, with no sign and no leading zero.
fn is_decimal(word: &[u8], n: u32) -> bool
    ensures { IsTrue result ↔ (word.now ≡ decimal n) }
{
    match gcd_text::number(word) {
        Some(m) => m == u64::from(n),
        None => false,
    }
}

// Whether the word is the mark, and then the number.
fn is_marked(word: &[u8], mark: u8, n: u32) -> bool
    ensures { IsTrue result ↔ (word.now ≡ mark ∷ decimal n) }
{
    match word.split_first() {
        Some((first, digits)) => *first == mark && is_decimal(digits, n),
        None => false,
    }
}

// Whether the word is the front, then the mark, and then the number.
fn is_numbered(word: &[u8], front: &[u8], mark: u8, n: u32) -> bool
    ensures { IsTrue result ↔ (word.now ≡ front.now ++ (mark ∷ decimal n)) }
{
    match word.split_at_checked(front.len()) {
        Some((before, after)) => before == front && is_marked(after, mark, n),
        None => false,
    }
}

fn has_intake_name(b: &BlkPart, k: u32) -> bool
    ensures { IsTrue result ↔ (b.now.name ≡ codes "+" ++ decimal k) }
{
    is_marked(b.name.as_str().as_bytes(), b'+', k)
}

fn has_strip_name(b: &BlkPart, s: &StripPart, place: u32) -> bool
    ensures { IsTrue result ↔ (b.now.name ≡ string_bytes s.now.name ++ (codes "." ++ decimal place)) }
{
    is_numbered(b.name.as_str().as_bytes(), s.name.as_bytes(), b'.', place)
}

/// Whether the block is as the intake makes its block at this place, from 1.
pub fn is_intake_block(b: &BlkPart, k: u32) -> bool
    ensures { IsTrue result ↔ (blk_view b.now ≡ intake_block k) }
{
    has_intake_name(b, k) && b.acts.is_empty() && b.work.is_none()
}

/// Whether the block is as the strip makes its block at this place, from 0.
pub fn is_strip_block(b: &BlkPart, s: &StripPart, place: u32) -> bool
    ensures { IsTrue result ↔ (blk_view b.now ≡ strip_block (strip_view s.now) place) }
{
    has_strip_name(b, s, place) && b.acts.is_empty() && b.work == Some(s.work(place))
}
