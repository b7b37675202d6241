// A plan once more.
ghost use Rattle.std.specs.Prelude.{◌≡◌, map, IfOk};
ghost use Rattle.gcd_plan.specs.PlanView.{obj_view, blk_view, file_view, strip_view, view_of};

use crate::name::Name;
use crate::parts::{BlkPart, FilePart, ObjPart, Parts, StripPart};
use std::alloc::{AllocError, Global};

fn copied_object(alloc: Global, o: &ObjPart) -> Result<ObjPart, AllocError>
    ensures { IfOk result (λ p. obj_view p ≡ obj_view o.now) }
{
    Ok(ObjPart {
        name: o.name.clone()?,
        kind: o.kind,
        target: o.target,
        active: o.active,
        path: o.path.clone()?,
        handler: Vec::from_slice(alloc, &o.handler)?,
        cancel: o.cancel,
    })
}

fn copied_block(alloc: Global, b: &BlkPart) -> Result<BlkPart, AllocError>
    ensures { IfOk result (λ p. blk_view p ≡ blk_view b.now) }
{
    Ok(BlkPart {
        name: Name::new(alloc, b.name.as_str())?,
        acts: Vec::from_slice(alloc, &b.acts)?,
        work: b.work,
    })
}

fn copied_file(f: &FilePart) -> Result<FilePart, AllocError>
    ensures { IfOk result (λ p. file_view p ≡ file_view f.now) }
{
    Ok(FilePart {
        name: f.name.clone()?,
        path: f.path.clone()?,
        line: f.line,
    })
}

fn copied_strip(s: &StripPart) -> Result<StripPart, AllocError>
    ensures { IfOk result (λ p. strip_view p ≡ strip_view s.now) }
{
    Ok(StripPart {
        name: s.name.clone()?,
        how: s.how,
        file: s.file,
        len: s.len,
        first: s.first,
        count: s.count,
    })
}

fn copied_objects(alloc: Global, objects: &[ObjPart]) -> Result<Vec<ObjPart>, AllocError>
    ensures { IfOk result (λ v. map obj_view v.items ≡ map obj_view objects.now) }
{
    let mut v = Vec::with_capacity(alloc, objects.len())?;
    for o in objects {
        v.push(copied_object(alloc, o)?)?;
    }
    Ok(v)
}

fn copied_blocks(alloc: Global, blocks: &[BlkPart]) -> Result<Vec<BlkPart>, AllocError>
    ensures { IfOk result (λ v. map blk_view v.items ≡ map blk_view blocks.now) }
{
    let mut v = Vec::with_capacity(alloc, blocks.len())?;
    for b in blocks {
        v.push(copied_block(alloc, b)?)?;
    }
    Ok(v)
}

fn copied_files(alloc: Global, files: &[FilePart]) -> Result<Vec<FilePart>, AllocError>
    ensures { IfOk result (λ v. map file_view v.items ≡ map file_view files.now) }
{
    let mut v = Vec::with_capacity(alloc, files.len())?;
    for f in files {
        v.push(copied_file(f)?)?;
    }
    Ok(v)
}

fn copied_strips(alloc: Global, strips: &[StripPart]) -> Result<Vec<StripPart>, AllocError>
    ensures { IfOk result (λ v. map strip_view v.items ≡ map strip_view strips.now) }
{
    let mut v = Vec::with_capacity(alloc, strips.len())?;
    for s in strips {
        v.push(copied_strip(s)?)?;
    }
    Ok(v)
}

/// The same parts once more.
pub fn copied_parts(alloc: Global, parts: &Parts) -> Result<Parts, AllocError>
    ensures { IfOk result (λ p. view_of p ≡ view_of parts.now) }
{
    Ok(Parts {
        objects: copied_objects(alloc, &parts.objects)?,
        blocks: copied_blocks(alloc, &parts.blocks)?,
        files: copied_files(alloc, &parts.files)?,
        until: parts.until,
        intake: parts.intake,
        strips: copied_strips(alloc, &parts.strips)?,
    })
}
