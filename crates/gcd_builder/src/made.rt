// The blocks that an intake and a strip make, in the parts of a plan.
ghost use Rattle.std.specs.Prelude.{◌≡◌, ◌≤◌, ◌+◌, ◌++◌, codes, decimal, length, map, string_bytes, IfOk, OnOk};
ghost use Rattle.gcd_plan.specs.Limits.{max_blocks};
ghost use Rattle.gcd_plan.specs.Made.{intake_block, strip_block};
ghost use Rattle.gcd_plan.specs.PlanView.{blk_view, strip_view, view_of};
ghost use Rattle.gcd_builder.specs.Changes.{new_intake, new_strip, with_intake, with_strip};
ghost use Rattle.std.specs.List.{range_with_len};

use gcd_plan::{BlkPart, How, Name, Obj, Parts, StripPart};
use itoa::Buffer;
use std::alloc::{AllocError, Global};

// The text, and the number behind it in decimal.
fn numbered(alloc: Global, front: &str, n: u32) -> Result<Name, AllocError>
    ensures { IfOk result (λ name. name ≡ front.now ++ decimal n) }
{
    let mut buffer = Buffer::new();
    let digits = buffer.format(n);
    let mut name = String::with_capacity(alloc, front.len() + digits.len())?;
    name.push_str(front)?;
    name.push_str(digits)?;
    Name::new(alloc, name.as_str())
}

// The block that an intake makes for this place, from 1.
fn intake_block(alloc: Global, place: u32) -> Result<BlkPart, AllocError>
    ensures { IfOk result (λ block. blk_view block ≡ intake_block place) }
{
    Ok(BlkPart {
        name: numbered(alloc, "+", place)?,
        acts: Vec::new(alloc),
        work: None,
    })
}

// Adds the blocks of an intake.
#[tactic(auto, using(crate::proofs::Pushed::none_pushed, crate::proofs::Pushed::one_pushed))]
fn push_intake_blocks(
    alloc: Global,
    blocks: &mut Vec<BlkPart>,
    count: u32,
) -> Result<(), AllocError>
    requires { length blocks.old.items + count ≤ max_blocks }
    ensures { OnOk result (map blk_view blocks.new.items ≡ map blk_view blocks.old.items ++ map intake_block (range_with_len 1 count)) }
{
    blocks.reserve(count as usize)?;
    for k in 0..count {
        blocks.push(intake_block(alloc, k + 1)?)?;
    }
    Ok(())
}

/// Adds an intake and its blocks.
pub fn push_intake(
    alloc: Global,
    parts: &mut Parts,
    queue: Obj,
    count: u32,
) -> Result<(), AllocError>
    requires { length (view_of parts.old).blocks + count ≤ max_blocks }
    ensures { OnOk result (view_of parts.new ≡ with_intake (new_intake queue count (view_of parts.old)) (view_of parts.old)) }
{
    let first = parts.blocks.len() as u32;
    push_intake_blocks(alloc, &mut parts.blocks, count)?;
    parts.intake = Some((queue, first, count));
    Ok(())
}

// The block that a strip makes for this place, from 0; `front` is the strip's name and a point.
fn strip_block(
    alloc: Global,
    strip: &StripPart,
    front: &str,
    place: u32,
) -> Result<BlkPart, AllocError>
    requires { front.now ≡ string_bytes strip.now.name ++ codes "." }
    ensures { IfOk result (λ block. blk_view block ≡ strip_block (strip_view strip.now) place) }
{
    Ok(BlkPart {
        name: numbered(alloc, front, place)?,
        acts: Vec::new(alloc),
        work: Some(strip.work(place)),
    })
}

// The strip's name and a point.
fn front_of(alloc: Global, strip: &StripPart) -> Result<String, AllocError>
    ensures { IfOk result (λ front. string_bytes front ≡ string_bytes strip.now.name ++ codes ".") }
{
    let mut front = String::from_str(alloc, strip.name.as_str())?;
    front.push_str(".")?;
    Ok(front)
}

// Adds the blocks of a strip.
#[tactic(auto, using(crate::proofs::Pushed::none_pushed, crate::proofs::Pushed::one_pushed))]
fn push_strip_blocks(
    alloc: Global,
    blocks: &mut Vec<BlkPart>,
    strip: &StripPart,
) -> Result<(), AllocError>
    requires { length blocks.old.items + strip.now.count ≤ max_blocks }
    ensures { OnOk result (map blk_view blocks.new.items ≡ map blk_view blocks.old.items ++ map (strip_block (strip_view strip.now)) (range_with_len 0 strip.now.count)) }
{
    let front = front_of(alloc, strip)?;
    blocks.reserve(strip.count as usize)?;
    for place in 0..strip.count {
        blocks.push(strip_block(alloc, strip, front.as_str(), place)?)?;
    }
    Ok(())
}

/// Adds a strip and its blocks (dispatch_apply(3)).
pub fn push_strip(
    alloc: Global,
    parts: &mut Parts,
    name: &str,
    how: How,
    file: u32,
    len: u32,
    count: u32,
) -> Result<(), AllocError>
    requires { length (view_of parts.old).blocks + count ≤ max_blocks }
    ensures { OnOk result (view_of parts.new ≡ with_strip (new_strip name.now how file len count (view_of parts.old)) (view_of parts.old)) }
{
    let strip = StripPart {
        name: String::from_str(alloc, name)?,
        how,
        file,
        len,
        first: parts.blocks.len() as u32,
        count,
    };
    push_strip_blocks(alloc, &mut parts.blocks, &strip)?;
    parts.strips.push(strip)?;
    Ok(())
}
