// Whether names are well formed and apart.
ghost use Rattle.std.specs.Prelude.{◌≡◌, ◌<◌, ◌++◌, take, map, length, string_bytes, IfOk, IfErr};
ghost use Rattle.std.specs.List.{list_any};
ghost use Rattle.std.specs.Str.{bytes_eq};
ghost use Rattle.gcd_plan.specs.Breaks.{Breaks, Has, names_before_file, names_before_object, names_before_strip, names_before_block};
ghost use Rattle.gcd_plan.specs.Checked.{AllHave, IsNewName, IsNewBlock};
ghost use Rattle.gcd_plan.specs.PlanView.{view_of};
ghost use Rattle.gcd_plan.specs.Validity.{declared_names};
ghost use Rattle.gcd_plan.specs.WithinLimits.{IsWithinLimits};

use crate::made::is_made;
use crate::names_valid::is_name;
use crate::numbers::{Blk, Obj};
use crate::parts::{BlkPart, FilePart, ObjPart, Parts, StripPart};
use crate::parts_fault::PartsFault;
use crate::parts_valid::{block_at, file_at, object_at, strip_at};

fn is_called(own: &String, name: &str) -> bool
    ensures { result ≡ bytes_eq name.now (string_bytes own.now) }
{
    name == own.as_str()
}

fn is_file_name(files: &[FilePart], name: &str) -> bool
    ensures { result ≡ list_any (λ f. bytes_eq name.now (string_bytes f.name)) files.now }
{
    files.iter().any(|f| is_called(&f.name, name))
}

fn is_object_name(objects: &[ObjPart], name: &str) -> bool
    ensures { result ≡ list_any (λ o. bytes_eq name.now (string_bytes o.name)) objects.now }
{
    objects.iter().any(|o| is_called(&o.name, name))
}

fn is_strip_name(strips: &[StripPart], name: &str) -> bool
    ensures { result ≡ list_any (λ s. bytes_eq name.now (string_bytes s.name)) strips.now }
{
    strips.iter().any(|s| is_called(&s.name, name))
}

fn is_block_name(blocks: &[BlkPart], name: &str) -> bool
    ensures { result ≡ list_any (λ b. bytes_eq name.now b.name) blocks.now }
{
    blocks.iter().any(|b| name == b.name.as_str())
}

#[tactic(auto, using(crate::proofs::NamesApart::before_file))]
fn is_before_file(parts: &Parts, f: u32, name: &str) -> bool
    requires { f < length parts.now.files.items }
    ensures { result ≡ list_any (bytes_eq name.now) (names_before_file (view_of parts.now) f) }
{
    is_file_name(&parts.files[..f as usize], name)
}

#[tactic(auto, using(crate::proofs::NamesApart::before_object))]
fn is_before_object(parts: &Parts, o: Obj, name: &str) -> bool
    requires { o.0 < length parts.now.objects.items }
    ensures { result ≡ list_any (bytes_eq name.now) (names_before_object (view_of parts.now) o.0) }
{
    is_file_name(&parts.files, name) || is_object_name(&parts.objects[..o.0 as usize], name)
}

#[tactic(auto, using(crate::proofs::NamesApart::before_strip))]
fn is_before_strip(parts: &Parts, a: u32, name: &str) -> bool
    requires { a < length parts.now.strips.items }
    ensures { result ≡ list_any (bytes_eq name.now) (names_before_strip (view_of parts.now) a) }
{
    if is_file_name(&parts.files, name) {
        return true;
    }
    is_object_name(&parts.objects, name) || is_strip_name(&parts.strips[..a as usize], name)
}

#[tactic(auto, using(crate::proofs::NamesApart::declared_seen))]
fn is_declared_name(parts: &Parts, name: &str) -> bool
    ensures { result ≡ list_any (bytes_eq name.now) (declared_names (view_of parts.now)) }
{
    if is_file_name(&parts.files, name) {
        return true;
    }
    is_object_name(&parts.objects, name) || is_strip_name(&parts.strips, name)
}

#[tactic(auto, using(crate::proofs::NamesApart::before_block))]
fn is_before_block(parts: &Parts, b: Blk, name: &str) -> bool
    requires { b.0 < length parts.now.blocks.items }
    ensures { result ≡ list_any (bytes_eq name.now) (names_before_block (view_of parts.now) b.0) }
{
    is_declared_name(parts, name) || is_block_name(&parts.blocks[..b.0 as usize], name)
}

fn check_file_name(parts: &Parts, f: u32) -> Result<(), PartsFault>
    requires { f < length parts.now.files.items }
    ensures fits { IfOk result (λ _. Has (view_of parts.now).files f (λ v. IsNewName (names_before_file (view_of parts.now) f) v.name)) }
    ensures broken { IfErr result (Breaks (view_of parts.now)) }
{
    let name = file_at(parts, f).name.as_str();
    if !is_name(name.as_bytes()) {
        return Err(PartsFault::FileNameIllFormed(f));
    }
    if is_before_file(parts, f, name) {
        return Err(PartsFault::FileNameTaken(f));
    }
    Ok(())
}

fn check_object_name(parts: &Parts, o: Obj) -> Result<(), PartsFault>
    requires { o.0 < length parts.now.objects.items }
    ensures fits { IfOk result (λ _. Has (view_of parts.now).objects o.0 (λ v. IsNewName (names_before_object (view_of parts.now) o.0) v.name)) }
    ensures broken { IfErr result (Breaks (view_of parts.now)) }
{
    let name = object_at(parts, o).name.as_str();
    if !is_name(name.as_bytes()) {
        return Err(PartsFault::ObjectNameIllFormed(o));
    }
    if is_before_object(parts, o, name) {
        return Err(PartsFault::ObjectNameTaken(o));
    }
    Ok(())
}

fn check_strip_name(parts: &Parts, a: u32) -> Result<(), PartsFault>
    requires { a < length parts.now.strips.items }
    ensures fits { IfOk result (λ _. Has (view_of parts.now).strips a (λ v. IsNewName (names_before_strip (view_of parts.now) a) v.name)) }
    ensures broken { IfErr result (Breaks (view_of parts.now)) }
{
    let name = strip_at(parts, a).name.as_str();
    if !is_name(name.as_bytes()) {
        return Err(PartsFault::StripNameIllFormed(a));
    }
    if is_before_strip(parts, a, name) {
        return Err(PartsFault::StripNameTaken(a));
    }
    Ok(())
}

fn check_block_name(parts: &Parts, b: Blk) -> Result<(), PartsFault>
    requires { b.0 < length parts.now.blocks.items }
    ensures fits { IfOk result (λ _. Has (view_of parts.now).blocks b.0 (λ v. IsNewBlock (view_of parts.now) b.0 v.name)) }
    ensures broken { IfErr result (Breaks (view_of parts.now)) }
{
    let name = block_at(parts, b).name.as_str();
    if !is_name(name.as_bytes()) {
        if !is_made(parts, b) {
            return Err(PartsFault::BlockNameIllFormed(b));
        }
    }
    if is_before_block(parts, b, name) {
        return Err(PartsFault::BlockNameTaken(b));
    }
    Ok(())
}

/// Ok where each file's name is well formed and no earlier part's.
pub fn check_file_names(parts: &Parts) -> Result<(), PartsFault>
    requires { IsWithinLimits parts.now }
    ensures fits { IfOk result (λ _. AllHave (view_of parts.now).files (λ f v. IsNewName (names_before_file (view_of parts.now) f) v.name)) }
    ensures broken { IfErr result (Breaks (view_of parts.now)) }
{
    for f in 0..parts.files.len() as u32 {
        check_file_name(parts, f)?;
    }
    Ok(())
}

/// Ok where each object's name is well formed and no earlier part's.
pub fn check_object_names(parts: &Parts) -> Result<(), PartsFault>
    requires { IsWithinLimits parts.now }
    ensures fits { IfOk result (λ _. AllHave (view_of parts.now).objects (λ o v. IsNewName (names_before_object (view_of parts.now) o) v.name)) }
    ensures broken { IfErr result (Breaks (view_of parts.now)) }
{
    for o in 0..parts.objects.len() as u32 {
        check_object_name(parts, Obj(o))?;
    }
    Ok(())
}

/// Ok where each strip's name is well formed and no earlier part's.
pub fn check_strip_names(parts: &Parts) -> Result<(), PartsFault>
    requires { IsWithinLimits parts.now }
    ensures fits { IfOk result (λ _. AllHave (view_of parts.now).strips (λ a v. IsNewName (names_before_strip (view_of parts.now) a) v.name)) }
    ensures broken { IfErr result (Breaks (view_of parts.now)) }
{
    for a in 0..parts.strips.len() as u32 {
        check_strip_name(parts, a)?;
    }
    Ok(())
}

/// Ok where each block's name is no earlier part's, and is well formed where the block is not of the intake or of a strip.
pub fn check_block_names(parts: &Parts) -> Result<(), PartsFault>
    requires { IsWithinLimits parts.now }
    ensures fits { IfOk result (λ _. AllHave (view_of parts.now).blocks (λ b v. IsNewBlock (view_of parts.now) b v.name)) }
    ensures broken { IfErr result (Breaks (view_of parts.now)) }
{
    for b in 0..parts.blocks.len() as u32 {
        check_block_name(parts, Blk(b))?;
    }
    Ok(())
}
