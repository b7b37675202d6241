// What a form asks of one word that names something.
ghost use Rattle.std.specs.Prelude.{◌≡◌};
ghost use Rattle.gcd_plan.specs.PlanView.{view_of};
ghost use Rattle.gcd_script.specs.Causes.{cause_refusal, coded};
ghost use Rattle.gcd_script.specs.declared.refusal.Refusal.TheVariants.{BadName};

use crate::cause::Cause;
use crate::draft::Draft;
use crate::meant::Meant;
use gcd_builder::{Asked, Meaning};
use gcd_plan::{Blk, Obj, is_name};

// Returns why a line may not declare the name.
fn bad_name(name: &str) -> Cause
    ensures { cause_refusal result ≡ BadName }
{
    if name == "root" || name == "main" {
        Cause::ReservedName
    } else if is_name(name.as_bytes()) {
        Cause::TakenName
    } else {
        Cause::IllFormedName
    }
}

impl<'a> Draft<'a> {
    ghost use Rattle.gcd_plan.specs.Kinds.{has_kind};
    ghost use Rattle.gcd_builder.specs.Agreement.{Agrees};
    ghost use Rattle.gcd_builder.specs.Asked.{asks};
    ghost use Rattle.gcd_builder.specs.Names.{is_unused};
    ghost use Rattle.gcd_script.specs.Words.{new_name, known, as_object, file, block, strip, object, object_but_root};

    /// That it is a new name.
    pub fn new_name(&self, name: &str) -> Meant<()>
        requires { Agrees self.now.plan }
        ensures { coded result ≡ new_name (view_of self.now.plan.parts) name.now }
    {
        if self.plan.is_unused(name) {
            Ok(())
        } else {
            Err(bad_name(name))
        }
    }

    /// Returns a file's number, by its name at that place.
    pub fn file(&self, place: u8, name: &str) -> Meant<u32>
        requires { Agrees self.now.plan }
        ensures { coded result ≡ file (view_of self.now.plan.parts) name.now }
    {
        match self.plan.meaning(name) {
            Some(Meaning::File(file)) => Ok(file),
            Some(Meaning::Object(_)) => Err(Cause::NotFile { place }),
            Some(Meaning::Block(_)) => Err(Cause::NotFile { place }),
            Some(Meaning::Strip(_)) => Err(Cause::NotFile { place }),
            None => Err(Cause::UnknownName { place }),
        }
    }

    /// Returns a block, by its name at that place.
    pub fn block(&self, place: u8, name: &str) -> Meant<Blk>
        requires { Agrees self.now.plan }
        ensures { coded result ≡ block (view_of self.now.plan.parts) name.now }
    {
        match self.plan.meaning(name) {
            Some(Meaning::File(_)) => Err(Cause::NotBlock { place }),
            Some(Meaning::Object(_)) => Err(Cause::NotBlock { place }),
            Some(Meaning::Block(block)) => Ok(block),
            Some(Meaning::Strip(_)) => Err(Cause::NotBlock { place }),
            None => Err(Cause::UnknownName { place }),
        }
    }

    /// Returns a strip's number, by its name at that place (dispatch_apply(3)).
    pub fn strip(&self, place: u8, name: &str) -> Meant<u32>
        requires { Agrees self.now.plan }
        ensures { coded result ≡ strip (view_of self.now.plan.parts) name.now }
    {
        match self.plan.meaning(name) {
            Some(Meaning::File(_)) => Err(Cause::NotStrip { place }),
            Some(Meaning::Object(_)) => Err(Cause::NotStrip { place }),
            Some(Meaning::Block(_)) => Err(Cause::NotStrip { place }),
            Some(Meaning::Strip(strip)) => Ok(strip),
            None => Err(Cause::UnknownName { place }),
        }
    }

    /// Returns an object of such a kind, by its name at that place.
    pub fn object(&self, asked: Asked, place: u8, name: &str) -> Meant<Obj>
        requires { Agrees self.now.plan }
        ensures { coded result ≡ object (view_of self.now.plan.parts) (asks asked) name.now }
    {
        match self.plan.meaning(name) {
            Some(Meaning::File(_)) => Err(Cause::NotObject { place, asked }),
            Some(Meaning::Object(o)) => {
                if self.plan.has_kind(asked, o) {
                    Ok(o)
                } else {
                    Err(Cause::NotObject { place, asked })
                }
            }
            Some(Meaning::Block(_)) => Err(Cause::NotObject { place, asked }),
            Some(Meaning::Strip(_)) => Err(Cause::NotObject { place, asked }),
            None => Err(Cause::UnknownName { place }),
        }
    }

    /// Returns an object of such a kind other than `root`, by its name at that place.
    pub fn object_but_root(&self, asked: Asked, place: u8, name: &str) -> Meant<Obj>
        requires { Agrees self.now.plan }
        ensures { coded result ≡ object_but_root (view_of self.now.plan.parts) (asks asked) name.now }
    {
        let o = self.object(asked, place, name)?;
        if 0 < o.0 {
            Ok(o)
        } else {
            Err(Cause::NotObject { place, asked })
        }
    }
}
