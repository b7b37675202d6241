// What a block or an object still waits for, in words.

use crate::sight::Sight;
use gcd_plan::{Blk, Obj, Reason};
use std::alloc::{AllocError, Global};

/// What holds an object: that it is inactive, suspended or under way to another target.
pub fn hold_words(alloc: Global, sight: Sight, o: Obj) -> Result<String, AllocError> {
    let (kind, name, now) = (
        sight.kind_of(o),
        sight.name_of_object(o),
        sight.scene.object(o),
    );
    if !now.is_active {
        return format!(in alloc; "the {kind} {name} is inactive");
    }
    if now.holds > 0 {
        return format!(in alloc; "the {kind} {name} is suspended (hold {})", now.holds);
    }
    match now.coming {
        Some(target) => {
            let target = sight.name_of_object(target);
            format!(in alloc; "the {kind} {name} is under way to its new target {target}")
        }
        None => format!(in alloc; "the {kind} {name} is not free"),
    }
}

/// Why a registered block is not submitted, in words: its group counts on, or the block before it has not ended. None if no act has
/// registered it. An `Err` comes only where memory runs out.
pub fn registered_words(alloc: Global, sight: Sight, b: Blk) -> Result<Option<String>, AllocError> {
    let now = sight.scene.block(b);
    if let Some(g) = now.notify {
        let (group, count) = (sight.name_of_object(g), sight.scene.object(g).count());
        return Ok(Some(format!(in alloc; "group {group} still counts {count}")?));
    }
    let Some(first) = now.after else {
        return Ok(None);
    };
    let block = sight.name_of_block(first);
    Ok(Some(format!(in alloc; "{block} has not ended")?))
}

// What a wait at a semaphore waits for.
fn rank_words(alloc: Global, sight: Sight, s: Obj, rank: u32) -> Result<String, AllocError> {
    let (name, first, now) = (
        sight.name_of_object(s),
        sight.first_value(s),
        sight.scene.object(s),
    );
    let (signals, expired) = (now.signals, now.expired);
    if expired == 0 {
        return format!(in alloc;
            "semaphore {name}, as wait {rank} (first value {first}, signals {signals})"
        );
    }
    format!(in alloc;
        "semaphore {name}, as wait {rank} (first value {first}, signals {signals}, expired waits {expired})"
    )
}

/// What a parked block waits for.
pub fn awaited_words(alloc: Global, sight: Sight, reason: Reason) -> Result<String, AllocError> {
    match reason {
        Reason::Block(b) => format!(in alloc; "the end of {}", sight.name_of_block(b)),
        Reason::Group(g, _) => {
            let (name, count) = (sight.name_of_object(g), sight.scene.object(g).count());
            format!(in alloc; "group {name}, which counts {count}")
        }
        Reason::Strip(a) => {
            let (name, (_, left)) = (sight.name_of_strip(a), sight.left_of_strip(a));
            format!(in alloc; "strip {name} ({left} of its blocks not ended)")
        }
        Reason::Rank(s, rank) => rank_words(alloc, sight, s, rank),
    }
}
