//! Wires and cuts with the space that each keeps, each layer in a plane of its own.

ghost use Rattle.geom_core.specs.Reach.{IsShapeInReach};
ghost use Rattle.rule_check.specs.Members.{layer_of, members_from, plane_of, space_of, wire_member};
ghost use Rattle.std.specs.List.{zip};
ghost use Rattle.std.specs.Prelude.{◌≡◌, ◌≤◌, ◌≤ℤ◌, pos, length, All, IfOk};

use crate::measures::length_in;
use crate::pairs::push_made;
use close_rects::{Member, in_plane};
use geom_core::{LayerName, Shape, ShapesInReach};
use std::alloc::{AllocError, Global};
use tech_rules::Rules;

// A layer whose shapes keep a space.
#[derive(Clone, Copy, Debug, PartialEq, Eq)]
pub(crate) enum Layer {
    Horizontal,
    Vertical,
    Cut,
}

// The shapes of these layers, each with its class, as members that keep their layer's space.
pub(crate) fn wire_members(
    alloc: Global,
    judged: &ShapesInReach,
    rules: &Rules,
    classes: &[u32],
) -> Result<Vec<Member>, AllocError>
    requires { length classes.now ≡ length judged.now }
    ensures { IfOk result (λ v. v.items ≡ members_from (wire_member rules.now) 0 (zip classes.now judged.now)) }
{
    let shapes = judged.shapes();
    let mut members = Vec::new(alloc);
    for k in 0..shapes.len() {
        let made = wire_member(rules, &shapes[k], classes[k], k as u32);
        push_made(&mut members, made)?;
    }
    Ok(members)
}

fn wire_member(rules: &Rules, shape: &Shape, class: u32, number: u32) -> Option<Member>
    requires { IsShapeInReach shape.now }
    ensures { result ≡ wire_member rules.now number (class, shape.now) }
{
    let layer = layer_of(rules, &shape.layer)?;
    Some(Member {
        number,
        class,
        rect: in_plane(&shape.rect, plane_of(layer)),
        reach: space_of(rules, layer),
    })
}

fn layer_of(rules: &Rules, name: &LayerName) -> Option<Layer>
    ensures { result ≡ layer_of rules.now name.now }
{
    let text = name.text();
    if text == rules.horizontal.layer.text() {
        Some(Layer::Horizontal)
    } else if text == rules.vertical.layer.text() {
        Some(Layer::Vertical)
    } else if text == rules.cut.layer.text() {
        Some(Layer::Cut)
    } else {
        None
    }
}

// The plane in which the rectangles of a layer are compared.
fn plane_of(layer: Layer) -> u8
    ensures is { result ≡ plane_of layer }
    ensures few { result ≤ 2 }
{
    match layer {
        Layer::Horizontal => 0,
        Layer::Vertical => 1,
        Layer::Cut => 2,
    }
}

fn space_of(rules: &Rules, layer: Layer) -> i64
    ensures is { result ≡ space_of rules.now layer }
    ensures low { pos 0 ≤ℤ result }
    ensures high { result ≤ℤ pos 2000000 }
{
    match layer {
        Layer::Horizontal => length_in(rules, rules.horizontal.space),
        Layer::Vertical => length_in(rules, rules.vertical.space),
        Layer::Cut => length_in(rules, rules.cut.space),
    }
}
