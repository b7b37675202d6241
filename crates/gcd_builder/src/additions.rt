// One thing more in the parts of a plan, and one name more that is known.
ghost use Rattle.std.specs.Prelude.{◌≡◌, ◌<◌, length, OnOk};
ghost use Rattle.gcd_plan.specs.PlanView.{IsRun, view_of};
ghost use Rattle.gcd_builder.specs.Changes.{new_block};
ghost use Rattle.gcd_builder.specs.Changes.{new_file, new_object, with_file, with_object, with_block, with_act, with_block_at, with_object_at, block_with_act, object_with_act, with_cancel};

use crate::meaning::Meaning;
use gcd_plan::{Act, Blk, BlkPart, FilePart, Kind, Obj, ObjPart, Parts, Run, Work};
use std::alloc::{AllocError, Global};
use std::collections::HashMap;

/// Adds a file.
pub fn push_file(
    alloc: Global,
    parts: &mut Parts,
    number: u32,
    name: &str,
    path: &str,
) -> Result<(), AllocError>
    ensures { OnOk result (view_of parts.new ≡ with_file (new_file number name.now path.now) (view_of parts.old)) }
{
    parts.files.push(FilePart {
        name: String::from_str(alloc, name)?,
        path: String::from_str(alloc, path)?,
        line: number,
    })?;
    Ok(())
}

/// Adds an object.
pub fn push_object(
    alloc: Global,
    parts: &mut Parts,
    name: &str,
    kind: Kind,
    target: Obj,
    active: bool,
    path: &str,
) -> Result<(), AllocError>
    ensures { OnOk result (view_of parts.new ≡ with_object (new_object name.now kind target active path.now) (view_of parts.old)) }
{
    parts.objects.push(ObjPart {
        name: String::from_str(alloc, name)?,
        kind,
        target,
        active,
        path: String::from_str(alloc, path)?,
        handler: Vec::new(alloc),
        cancel: None,
    })?;
    Ok(())
}

/// Adds a block with no act.
pub fn push_block(
    alloc: Global,
    parts: &mut Parts,
    name: &str,
    work: Option<Work>,
) -> Result<(), AllocError>
    ensures { OnOk result (view_of parts.new ≡ with_block (new_block name.now work) (view_of parts.old)) }
{
    let mut block = BlkPart::new(alloc, name)?;
    block.work = work;
    parts.blocks.push(block)?;
    Ok(())
}

/// Adds an act at the end of a body's.
pub fn push_act(parts: &mut Parts, run: Run, act: Act) -> Result<(), AllocError>
    requires { IsRun (view_of parts.old) run }
    ensures { OnOk result (view_of parts.new ≡ with_act act run (view_of parts.old)) }
{
    match run {
        Run::Block(b) => push_block_act(parts, b, act),
        Run::Source(s) => push_handler_act(parts, s, act),
    }
}

fn push_block_act(parts: &mut Parts, b: Blk, act: Act) -> Result<(), AllocError>
    requires { b.0 < length (view_of parts.old).blocks }
    ensures { OnOk result (view_of parts.new ≡ with_block_at b.0 (block_with_act act) (view_of parts.old)) }
{
    parts.blocks[b.0 as usize].acts.push(act)?;
    Ok(())
}

fn push_handler_act(parts: &mut Parts, s: Obj, act: Act) -> Result<(), AllocError>
    requires { s.0 < length (view_of parts.old).objects }
    ensures { OnOk result (view_of parts.new ≡ with_object_at s.0 (object_with_act act) (view_of parts.old)) }
{
    parts.objects[s.0 as usize].handler.push(act)?;
    Ok(())
}

/// Makes a block the cancellation block of a source (dispatch_source_set_cancel_handler(3)).
pub fn set_cancel(parts: &mut Parts, s: Obj, b: Blk)
    requires { s.0 < length (view_of parts.old).objects }
    ensures { view_of parts.new ≡ with_cancel s b (view_of parts.old) }
{
    parts.objects[s.0 as usize].cancel = Some(b);
}

ghost use Rattle.gcd_builder.specs.Agreement.{look_up, Declares};

/// Makes a name known.
pub fn declare<'a>(
    meanings: &mut HashMap<&'a str, Meaning>,
    name: &'a str,
    meaning: Meaning,
) -> Result<(), AllocError>
    ensures { OnOk result (Declares (look_up meanings.old) (look_up meanings.new) name.now meaning) }
{
    meanings.insert(name, meaning)?;
    Ok(())
}
