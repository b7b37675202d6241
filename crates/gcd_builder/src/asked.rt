// What is expected of an object's kind.
ghost use Rattle.std.specs.Prelude.{◌≡◌};

use gcd_plan::Kind;

/// What a form or a call expects of an object's kind (this project's own rule).
#[derive(Clone, Copy, Debug, PartialEq, Eq)]
pub enum Asked {
    /// A queue, `root` too.
    Queue,
    /// A source of any kind.
    Source,
    /// A queue or a source.
    Node,
    /// A group.
    Group,
    /// A semaphore.
    Semaphore,
    /// A source of merged values: add, or or replace.
    MergeSource,
    /// Any object.
    Any,
}

impl Asked {
    ghost use Rattle.gcd_builder.specs.Asked.{asks};

    /// Returns whether the kind is of this sort (this project's own rule).
    pub fn has(self, kind: Kind) -> bool
        ensures { result ≡ asks self kind }
    {
        match self {
            Asked::Queue => kind.is_queue(),
            Asked::Source => kind.is_source(),
            Asked::Node => kind.is_node(),
            Asked::Group => kind.is_group(),
            Asked::Semaphore => kind.is_semaphore(),
            Asked::MergeSource => kind.is_merge_source(),
            Asked::Any => true,
        }
    }

    // What is expected, in words.
    pub(crate) fn words(self) -> &'static str {
        match self {
            Asked::Queue => "a queue",
            Asked::Source => "a source",
            Asked::Node => "a queue or a source",
            Asked::Group => "a group",
            Asked::Semaphore => "a semaphore",
            Asked::MergeSource => "a source of merged values",
            Asked::Any => "an object",
        }
    }
}
