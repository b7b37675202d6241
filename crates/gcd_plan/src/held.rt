// The parts of a plan, its own or shared.
ghost use Rattle.std.specs.Prelude.{◌≡◌, IfOk};
ghost use Rattle.gcd_plan.specs.HeldParts.{parts_of};
ghost use Rattle.gcd_plan.specs.PlanView.{view_of};

use crate::copy::copied_parts;
use crate::parts::Parts;
use std::alloc::{AllocError, Global};
use std::sync::Arc;

/// The parts of a plan, as it keeps them.
#[derive(Drop)]
pub enum Held {
    /// They are this plan's alone.
    Own(Parts),
    /// The plan's copies have the same ones.
    Shared(Arc<Parts>),
}

impl Held {
    /// The parts.
    pub fn parts(&self) -> &Parts
        ensures { result.now ≡ parts_of self.now }
    {
        match self {
            Held::Own(parts) => parts,
            Held::Shared(parts) => parts,
        }
    }

    /// The same parts, to be shared by copies. An `Err` comes only where memory runs out, and the parts are dropped then.
    pub fn share(self, alloc: Global) -> Result<Held, AllocError>
        ensures { IfOk result (λ h. parts_of h ≡ parts_of self) }
    {
        match self {
            Held::Own(parts) => Ok(Held::Shared(Arc::new(alloc, parts)?)),
            Held::Shared(parts) => Ok(Held::Shared(parts)),
        }
    }

    /// The same parts once more: those that are shared are no copy and take no memory. An `Err` comes only where
    /// memory runs out.
    pub fn copied(&self, alloc: Global) -> Result<Held, AllocError>
        ensures { IfOk result (λ h. view_of (parts_of h) ≡ view_of (parts_of self.now)) }
    {
        match self {
            Held::Own(parts) => Ok(Held::Own(copied_parts(alloc, parts)?)),
            Held::Shared(parts) => Ok(Held::Shared(Arc::try_clone(parts)?)),
        }
    }
}
