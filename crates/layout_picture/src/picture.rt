//! A picture: what it shows of a layout, and the layers of that.

ghost use Rattle.layout_picture.specs.Frame.{frame_of, shown_shapes};
ghost use Rattle.layout_picture.specs.Styles.{layers_of};
ghost use Rattle.list_facts.specs.Names.{mention};
ghost use Rattle.list_facts.specs.Texts.{texts};
ghost use Rattle.std.specs.Prelude.{◌≡◌, length, IfOk, OnOk};

use crate::view::{View, do_meet, frame_of};
use geom_core::{LayerName, Layout, Rect, Shape};
use indexmap::IndexSet;
use list_facts::is_new;
use std::alloc::{AllocError, Global};

/// The shapes that a picture may show, as browsers bear them.
pub const MOST_SHOWN: usize = 200_000;

/// A picture of a layout, with the different layers of that in the order of their first mention.
#[derive(Drop)]
pub struct Picture<'l> {
    pub layout: &'l Layout,
    pub view: View,
    layers: Vec<LayerName>,
    ghost mentioned: { layers.items ≡ layers_of layout.now.shapes },
}

// Puts a layer behind those that are mentioned, where it is new. The one error is want of memory.
fn mention<'l>(
    names: &mut IndexSet<&'l [u8]>,
    layers: &mut Vec<LayerName>,
    layer: &'l LayerName,
) -> Result<(), AllocError>
    requires { texts names.old.keys ≡ layers.old.items }
    ensures same { OnOk result (texts names.new.keys ≡ layers.new.items) }
    ensures mentioned { OnOk result (layers.new.items ≡ mention layers.old.items layer.entry.now) }
{
    if !is_new(names, layer.text())? {
        return Ok(());
    }
    layers.push(*layer)?;
    Ok(())
}

// The different layers of shapes. The one error is want of memory.
fn layers_of(alloc: Global, shapes: &[Shape]) -> Result<Vec<LayerName>, AllocError>
    ensures { IfOk result (λ layers. layers.items ≡ layers_of shapes.now) }
{
    let mut names = IndexSet::new(alloc);
    let mut layers = Vec::new(alloc);
    for shape in shapes {
        mention(&mut names, &mut layers, &shape.layer)?;
    }
    Ok(layers)
}

// How many shapes meet a frame.
fn count_shown(frame: &Rect, shapes: &[Shape]) -> usize
    ensures { result ≡ length (shown_shapes frame.now shapes.now) }
{
    shapes
        .iter()
        .filter(|shape| do_meet(frame, &shape.rect))
        .count()
}

impl<'l> Picture<'l> {
    /// A picture of this layout. The one error is want of memory.
    pub fn new(alloc: Global, layout: &'l Layout, view: View) -> Result<Picture<'l>, AllocError>
        ensures layout { IfOk result (λ p. p.layout.now ≡ layout.entry.now) }
        ensures view { IfOk result (λ p. p.view ≡ view) }
    {
        let layers = layers_of(alloc, layout.shapes.items())?;
        Ok(Picture {
            layout,
            view,
            layers,
        })
    }

    /// How many shapes it shows. Takes no memory.
    pub fn shapes_shown(&self) -> usize
        ensures { result ≡ length (shown_shapes (frame_of self.now.layout.now self.now.view) self.now.layout.now.shapes) }
    {
        count_shown(
            &frame_of(self.layout, &self.view),
            self.layout.shapes.items(),
        )
    }

    /// The different layers of its layout.
    pub(crate) fn layers(&self) -> &[LayerName]
        ensures { result.now ≡ layers_of self.now.layout.now.shapes }
    {
        self.layers.as_slice()
    }
}
