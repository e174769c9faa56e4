//! What a command has done.

use command_inputs::Inputs;
use command_words::Topic;
use geom_core::Layout;
use layout_check::Finding;
use layout_report::Summary;

/// A layout that was judged for a design under rules, and what was found.
#[derive(Drop)]
pub(crate) struct Judged {
    pub(crate) inputs: Inputs,
    pub(crate) layout: Layout,
    pub(crate) findings: Vec<Finding>,
}

/// What a command has done: it has laid a design out, of which this is told, judged a layout, or written a text; or a text of help is asked for.
#[derive(Drop)]
pub(crate) enum Done {
    LaidOut(Summary),
    Judged(Judged),
    Wrote,
    Helped(Topic),
}
