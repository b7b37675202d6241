// The colours of nodes.

use gcd_plan::{Obj, Plan};
use std::alloc::{AllocError, Global};
use std::fmt;

// Light colours, on which dark text is read, and far from each other.
static COLOURS: [&str; 11] = [
    "#8dd3c7", "#fdb462", "#bebada", "#ffed6f", "#80b1d3", "#b3de69", "#fccde5", "#bc80bd",
    "#fb8072", "#ccebc5", "#ffffb3",
];

// The colour of what is on no node.
static NEUTRAL: &str = "#e0e0e0";

/// A colour: that of the node of this number, or the neutral one.
#[derive(Clone, Copy)]
pub struct Colour(Option<u32>);

impl fmt::Display for Colour {
    fn fmt<W: fmt::Write>(&self, f: &mut fmt::Formatter<W>) -> fmt::Result {
        let Some(number) = self.0 else {
            return f.write_str(NEUTRAL);
        };
        if let Some(colour) = COLOURS.get(number as usize) {
            return f.write_str(colour);
        }
        // 137 and 360 have no common divisor, so the hues of 360 numbers in a row differ; each further 360 are lighter.
        let hue = number as u64 * 137 % 360;
        let light = 60 + number as u64 / 360 % 4 * 8;
        write!(f, "hsl({hue},65%,{light}%)")
    }
}

/// The colours of a plan's nodes, its queues and sources: no two have the same, and none has the neutral one.
#[derive(Drop)]
pub struct Palette {
    numbers: Vec<Option<u32>>,
}

impl Palette {
    /// The colours of the plan's nodes; an `Err` comes only where memory runs out.
    pub fn new(alloc: Global, plan: &Plan) -> Result<Palette, AllocError> {
        let mut numbers = Vec::new(alloc);
        let mut nodes = 0u32;
        for o in 0..plan.objects() {
            if plan.kind(Obj(o)).is_node() {
                numbers.push(Some(nodes))?;
                nodes = nodes.saturating_add(1);
            } else {
                numbers.push(None)?;
            }
        }
        Ok(Palette { numbers })
    }

    /// The colour of a node; the neutral one for none.
    pub fn of(&self, node: Option<Obj>) -> Colour {
        let Some(node) = node else {
            return Colour(None);
        };
        Colour(self.numbers.get(node.0 as usize).copied().unwrap_or(None))
    }
}
