//! The kinds of findings on cells, outlines, wires, cuts and nets, in the order in which they are told.

/// What is wrong with a layout, in the order in which it is told. The numbers are those of instances and pins of the design, and of cells
/// and shapes of the layout, from 0 on.
#[derive(Clone, Copy, Debug, PartialEq, Eq)]
pub enum Finding {
    /// No cell has this instance's name.
    Missing(u32),
    /// The first cell of a name, and a later one of that name.
    Doubled(u32, u32),
    /// No instance has this cell's name.
    Strange(u32),
    /// The cell has an instance's name and is no copy of its kind: its symbol has another name, it is turned by quarters, or its shapes are
    /// not the kind's drawing under its turn, in order.
    Drawing(u32),
    /// Two outlines that share an inner point.
    Overlap(u32, u32),
    /// Two outlines that stand at different heights and share an inner height.
    OutOfRow(u32, u32),
    /// A wire with a side below its layer's width, or a cut that is no square of the cut's size.
    Narrow(u32),
    /// Two shapes of one layer of wires, or two cuts, that are not joined and are closer than the layer's space.
    Close(u32, u32),
    /// A cut that does not lie, with what has to enclose it, in one shape of each layer of wires.
    BareCut(u32),
    /// The first pin of a net, and a later one that is not joined to it.
    Opened(u32, u32),
    /// The first of the pins that are joined, and a later one of another net.
    Short(u32, u32),
}
