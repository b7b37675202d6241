// The rules that a misuse breaks, in words.

use crate::naming::{act_at, objects_of};
use crate::scene::Place;
use crate::sight::Sight;
use gcd_plan::{Act, Obj};
use std::alloc::{AllocError, Global};

// The object of an act that has no reference left.
fn released(sight: Sight, act: Act) -> Obj {
    let (first, second) = objects_of(act);
    if sight.scene.object(first).refs == 0 && first.0 != 0 {
        first
    } else {
        second
    }
}

// The rule of a code, where it is no released name.
fn rule_words(alloc: Global, sight: Sight, act: Act, code: u8) -> Result<String, AllocError> {
    let (first, second) = objects_of(act);
    let (name, other) = (sight.name_of_object(first), sight.name_of_object(second));
    let (kind, now) = (sight.kind_of(first), sight.scene.object(first));
    match code {
        1 => format!(in alloc; "the {kind} {name} is not suspended"),
        2 => format!(in alloc; "no enter of group {name} is left to answer"),
        3 => format!(in alloc; "{other} leads to {name}, so the targets would make a cycle"),
        4 => format!(in alloc;
            "the {kind} {name} was created inactive and is active, and so keeps its target"
        ),
        5 => format!(in alloc; "another object has {name} as its target"),
        7 => format!(in alloc;
            "the {kind} {name} is suspended or inactive, and its last reference may not go"
        ),
        8 => {
            let (signals, waits) = (now.signals, now.waits);
            format!(in alloc;
                "semaphore {name} is below its first value (signals {signals}, waits {waits}), and its last reference may not go"
            )
        }
        _ => format!(in alloc; "a rule of {name} is broken"),
    }
}

/// The rule that the act at that place breaks as the misuse of that code, in words. An `Err` comes only where memory runs out.
pub fn misuse_words(
    alloc: Global,
    sight: Sight,
    at: Place,
    code: u8,
) -> Result<String, AllocError> {
    let Some(act) = act_at(sight.plan, at.run, at.index) else {
        return String::from_str(alloc, "there is no such act");
    };
    if code == 6 {
        let name = sight.name_of_object(released(sight, act));
        return format!(in alloc; "no reference to {name} is left");
    }
    rule_words(alloc, sight, act, code)
}

/// The name of a code of misuse.
pub fn code_name(code: u8) -> &'static str {
    match code {
        1 => "OverResume",
        2 => "UnbalancedLeave",
        3 => "TargetCycle",
        4 => "TargetAfterActivation",
        5 => "TargetWhileTargeted",
        6 => "UseAfterRelease",
        7 => "ReleaseWhileSuspended",
        8 => "ReleaseBelowFirstValue",
        _ => "?",
    }
}
