//! Warnings of layers that the rules name and a layout never uses.

use crate::judged::JudgedLayout;
use crate::lengths::shown;
use geom_core::LayerName;
use note_text::Notes;
use std::alloc::{AllocError, Global};

// Whether a shape of the layout is on this layer.
fn is_used(judged: &JudgedLayout<'_>, layer: &LayerName) -> bool {
    let shapes = judged.layout.shapes.items();
    shapes.iter().any(|shape| shape.layer == *layer)
}

// The warning of a layer that no shape is on, and which this key of the rules names.
fn warning(
    alloc: Global,
    judged: &JudgedLayout<'_>,
    layer: &LayerName,
    key: &str,
) -> Result<String, AllocError> {
    let name = shown(alloc, judged.cif_name.as_bytes())?;
    let layer = shown(alloc, layer.text())?;
    format!(in alloc; "warning: {name}: no shape is on {layer}, the {key} of the rules")
}

// Warns of a layer where no shape is on it.
fn note_layer(
    alloc: Global,
    notes: &mut Notes,
    judged: &JudgedLayout<'_>,
    layer: &LayerName,
    key: &str,
) {
    if is_used(judged, layer) {
        return;
    }
    if let Ok(line) = warning(alloc, judged, layer, key) {
        notes.note(line);
    }
}

/// Warns of each layer of the rules that no shape of a layout is on, unless the layout has no shapes at all. What memory has no room for is left out.
pub fn note_layers(alloc: Global, notes: &mut Notes, judged: &JudgedLayout<'_>) {
    if judged.layout.shapes.items().is_empty() {
        return;
    }
    let rules = judged.rules;
    note_layer(
        alloc,
        notes,
        judged,
        &rules.horizontal.layer,
        "horizontal.layer",
    );
    note_layer(
        alloc,
        notes,
        judged,
        &rules.vertical.layer,
        "vertical.layer",
    );
    note_layer(alloc, notes, judged, &rules.cut.layer, "cut.layer");
    note_layer(alloc, notes, judged, &rules.outline.layer, "outline.layer");
}
