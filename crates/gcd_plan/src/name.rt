// Names of blocks.
ghost use Rattle.std.specs.Prelude.{◌≡◌, IfOk};

use arrayvec::ArrayString;
use std::alloc::{AllocError, Global};
use std::marker::Model;

/// Where the bytes of a name are.
#[derive(Drop)]
pub enum Inside {
    /// In the value itself.
    Short(ArrayString<16>),
    /// In memory of their own.
    Long(String),
}

/// The name of a block, which contracts see as its bytes (this project's own rule). A name of at most 16 bytes takes no memory of its own.
#[derive(Drop)]
pub struct Name {
    inside: Inside,
}

impl Model for Name {
    ghost use Rattle.std.specs.Prelude.{List, ℕ};
    ghost use Rattle.gcd_plan.specs.NameBytes.{name_bytes};

    ghost Value = { List ℕ };

    ghost view = { λ n. name_bytes n.inside };
}

impl Name {
    /// The name of these bytes (this project's own rule). An `Err` comes only where memory runs out.
    pub fn new(alloc: Global, text: &str) -> Result<Name, AllocError>
        ensures { IfOk result (λ name. name ≡ text.now) }
    {
        match ArrayString::from(text) {
            Ok(short) => Ok(Name {
                inside: Inside::Short(short),
            }),
            Err(_) => Ok(Name {
                inside: Inside::Long(String::from_str(alloc, text)?),
            }),
        }
    }

    /// The name as a text.
    pub fn as_str(&self) -> &str
        ensures { result.now ≡ self.now }
    {
        match &self.inside {
            Inside::Short(short) => short.as_str(),
            Inside::Long(long) => long.as_str(),
        }
    }
}
