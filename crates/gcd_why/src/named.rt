// The line of a script that names something, and what is said of a script as a whole.

use crate::declared::line_of;
use gcd_plan::{Kind, Obj, Plan};

/// Returns the line of a script, of this plan and text, that declares the first read source with that path, from 1; 0 if there is none.
pub fn line_of_feed(plan: &Plan, text: &[u8], path: &str) -> u32 {
    for o in 0..plan.objects() {
        if plan.kind(Obj(o)) == Kind::Read && plan.path_of(Obj(o)) == path {
            return line_of(text, "source", plan.name_of_obj(Obj(o)));
        }
    }
    0
}

/// What is said of a script without an intake, for which `front` has senders.
pub const NO_INTAKE: &str =
    "the script has no intake, to which senders could send jobs: a line 'intake Q N' declares one";
