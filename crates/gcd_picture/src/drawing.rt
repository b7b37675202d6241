// What each file that draws a lane looks at.

use crate::bars::Bar;
use crate::frame::Frame;
use crate::palette::Palette;
use crate::parking::Parking;
use crate::showing::Showing;

/// A journal to be shown, and how it is laid out on a page.
#[derive(Clone, Copy)]
pub struct Drawing<'a> {
    /// The journal.
    pub showing: Showing<'a>,
    /// The stretches of its runs.
    pub bars: &'a [Bar],
    /// The measures of the page.
    pub frame: &'a Frame,
    /// The rows of the parked times.
    pub parking: &'a Parking,
    /// The colours of the nodes.
    pub palette: &'a Palette,
}
