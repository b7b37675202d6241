// What is taken of a draft, and what there is room for.
ghost use Rattle.std.specs.Prelude.{◌≡◌, ◌<◌, ◌+◌, ◌&&◌, not, Some, is_none, length, nat_le, nat_lt, slice_get, true};
ghost use Rattle.std.specs.Option.{option_map_or};
ghost use Rattle.gcd_plan.specs.Kinds.{has_kind};
ghost use Rattle.gcd_plan.specs.Limits.{max_acts, max_blocks, max_files, max_objects, max_strips};
ghost use Rattle.gcd_plan.specs.Made.{is_made};
ghost use Rattle.gcd_plan.specs.Names.{is_name};
ghost use Rattle.gcd_plan.specs.PlanView.{blk_view, cancel_block, view_of};
ghost use Rattle.gcd_plan.specs.Validity.{IsPlan, act_count, block_of, is_declared, strip_of};
ghost use Rattle.gcd_builder.specs.Bodies.{may_have};

use crate::asked::Asked;
use crate::draft::PlanDraft;
use gcd_plan::{
    Act, Blk, BlkPart, MAX_ACTS, MAX_BLOCKS, MAX_FILES, MAX_OBJECTS, MAX_STRIPS, Obj, Parts, Run,
    is_name,
};

/// Returns whether the body may have the act: a block may have any, a handler only one that submits nothing and waits for
/// nothing (dispatch_source_set_event_handler(3)).
pub fn may_have(run: Run, act: Act) -> bool
    ensures { result ≡ may_have run act }
{
    match run {
        Run::Block(_) => true,
        Run::Source(_) => act.is_for_handlers(),
    }
}

// The block of this number.
fn block_at(parts: &Parts, b: Blk) -> &BlkPart
    requires { b.0 < length parts.now.blocks.items }
    ensures { slice_get (view_of parts.now).blocks b.0 ≡ Some (blk_view result.now) }
{
    &parts.blocks[b.0 as usize]
}

// Whether the block's name is well formed.
fn is_named(block: &BlkPart) -> bool
    ensures { result ≡ is_name (blk_view block.now).name }
{
    is_name(block.name.as_str().as_bytes())
}

impl<'a> PlanDraft<'a> {
    ghost use Rattle.gcd_builder.specs.Agreement.{Agrees};
    ghost use Rattle.gcd_builder.specs.Asked.{asks};
    ghost use Rattle.gcd_builder.specs.Names.{is_unused};
    ghost use Rattle.gcd_builder.specs.Taken.{is_free, is_unapplied, is_untaken_by};

    /// Returns whether the name may be given to something new: it is a name, not `main`, and means nothing yet (this
    /// project's own rule).
    pub fn is_unused(&self, name: &str) -> bool
        requires { Agrees self.now }
        ensures { result ≡ is_unused (view_of self.now.parts) name.now }
    {
        is_name(name.as_bytes()) && name != "main" && self.meaning(name).is_none()
    }

    /// Returns whether there is such an object, of such a kind (this project's own rule).
    pub fn has_kind(&self, asked: Asked, o: Obj) -> bool
        ensures { result ≡ has_kind (asks asked) (view_of self.now.parts) o.0 }
    {
        match self.parts.objects.get(o.0 as usize) {
            Some(object) => asked.has(object.kind),
            None => false,
        }
    }

    // Whether there is such a block, and it is not of the intake or of a strip. The names of these are ill-formed, and so no
    // strip has to be looked at.
    pub(crate) fn has_body(&self, b: Blk) -> bool
        requires { IsPlan (view_of self.now.parts) }
        ensures { result ≡ (nat_lt b.0 (length (view_of self.now.parts).blocks) && not (is_made (view_of self.now.parts) b.0)) }
    {
        if (b.0 as usize) >= self.parts.blocks.len() {
            return false;
        }
        is_named(block_at(&self.parts, b))
    }

    // Whether there is such a block other than `main`, and it is not of the intake or of a strip.
    pub(crate) fn is_declared(&self, b: Blk) -> bool
        requires { IsPlan (view_of self.now.parts) }
        ensures { result ≡ is_declared (view_of self.now.parts) b }
    {
        b.0 > 0 && self.has_body(b)
    }

    /// Returns whether nothing submits the block yet (dispatch_async(3)).
    pub fn is_free(&self, b: Blk) -> bool
        requires { Agrees self.now }
        ensures { result ≡ is_free (view_of self.now.parts) b }
    {
        !self.submitted.get(b.0 as usize).copied().unwrap_or(false)
    }

    // Whether nothing submits the block of the act yet; true if the act submits none.
    fn submits_free(&self, act: Act) -> bool
        requires { Agrees self.now }
        ensures { result ≡ option_map_or (is_free (view_of self.now.parts)) (block_of act) true }
    {
        match act.block() {
            Some(b) => self.is_free(b),
            None => true,
        }
    }

    // Whether nothing applies the strip yet.
    pub(crate) fn is_unapplied(&self, a: u32) -> bool
        requires { Agrees self.now }
        ensures { result ≡ is_unapplied (view_of self.now.parts) a }
    {
        !self.applied.get(a as usize).copied().unwrap_or(false)
    }

    // Whether nothing applies the strip of the act yet; true if the act applies none (dispatch_apply(3)).
    fn applies_free(&self, act: Act) -> bool
        requires { Agrees self.now }
        ensures { result ≡ option_map_or (is_unapplied (view_of self.now.parts)) (strip_of act) true }
    {
        match act.strip() {
            Some(a) => self.is_unapplied(a),
            None => true,
        }
    }

    /// Returns whether nothing submits the block of the act yet, or applies its strip (dispatch_apply(3)).
    pub fn is_untaken_by(&self, act: Act) -> bool
        requires { Agrees self.now }
        ensures { result ≡ is_untaken_by (view_of self.now.parts) act }
    {
        self.submits_free(act) && self.applies_free(act)
    }

    /// Returns whether the source has no cancellation block yet (dispatch_source_set_cancel_handler(3)).
    pub fn lacks_cancel(&self, s: Obj) -> bool
        ensures { result ≡ is_none (cancel_block (view_of self.now.parts) s.0) }
    {
        match self.parts.objects.get(s.0 as usize) {
            Some(object) => object.cancel.is_none(),
            None => true,
        }
    }

    /// Returns whether there is no intake yet (this project's own rule).
    pub fn has_no_intake(&self) -> bool
        ensures { result ≡ is_none (view_of self.now.parts).intake }
    {
        self.parts.intake.is_none()
    }

    /// Returns whether there is room for one file more (this project's own rule).
    pub fn has_file_room(&self) -> bool
        ensures { result ≡ nat_lt (length (view_of self.now.parts).files) max_files }
    {
        self.parts.files.len() < MAX_FILES as usize
    }

    /// Returns whether there is room for one object more (this project's own rule).
    pub fn has_object_room(&self) -> bool
        ensures { result ≡ nat_lt (length (view_of self.now.parts).objects) max_objects }
    {
        self.parts.objects.len() < MAX_OBJECTS as usize
    }

    /// Returns whether there is room for one block more (this project's own rule).
    pub fn has_block_room(&self) -> bool
        ensures { result ≡ nat_lt (length (view_of self.now.parts).blocks) max_blocks }
    {
        self.parts.blocks.len() < MAX_BLOCKS as usize
    }

    /// Returns whether there is room for so many blocks more (this project's own rule).
    pub fn has_room_for(&self, count: u32) -> bool
        ensures { result ≡ nat_le (length (view_of self.now.parts).blocks + count) max_blocks }
    {
        count <= MAX_BLOCKS && self.parts.blocks.len() <= (MAX_BLOCKS - count) as usize
    }

    /// Returns whether there is room for one strip more (this project's own rule).
    pub fn has_strip_room(&self) -> bool
        ensures { result ≡ nat_lt (length (view_of self.now.parts).strips) max_strips }
    {
        self.parts.strips.len() < MAX_STRIPS as usize
    }

    /// Returns whether there is room for one act more (this project's own rule).
    pub fn has_act_room(&self) -> bool
        requires { Agrees self.now }
        ensures { result ≡ nat_lt (act_count (view_of self.now.parts)) max_acts }
    {
        self.acts < MAX_ACTS as usize
    }
}
