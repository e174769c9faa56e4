//! Tables of a design in rows: each pin with its place and its net's channels, and each net by its pins.

ghost use Rattle.feed_cells.specs.Feeds.{is_pin};
ghost use Rattle.feed_cells.specs.NetTables.{at_net};
ghost use Rattle.feed_cells.specs.Placement.{nets_among, of_net, placed_by, placement_of};
ghost use Rattle.row_model.specs.Rows.{ArePlaced};
ghost use Rattle.std.specs.Option.{option_map};
ghost use Rattle.std.specs.Prelude.{◌≡◌, ◌≤◌, ◌<◌, ℕ, Some, map, slice_get, IfOk};

use crate::crossing::Crossing;
use crate::net_places::{NetPlace, net_place};
use design_model::{Design, Pin};
use geom_core::Items;
use limits::MOST_PINS;
use list_facts::Lists;
use row_model::{PinPlace, Rows, pin_places};
use std::alloc::{AllocError, Global};

/// A pin with where it stands, which channels its net stands in, and whether it is the through pin of its net in its row.
#[derive(Clone, Copy, Debug, Drop)]
pub struct PlacedPin {
    pub place: PinPlace,
    pub crossing: Crossing,
    pub through: bool,
}

/// Where the pins and the nets of a design in rows stand: the pins in their order, and the nets in that of their numbers, from 1 on.
#[derive(Debug, Drop)]
pub struct Placement {
    pub pins: Items<PlacedPin>,
    pub nets: Items<NetPlace>,
}

/// Where the pins and nets of a design in rows stand. The one error is want of memory; steps as the number of pins, positions, cells and nets, and for each
/// pin as the number of rows that its net crosses.
#[tactic(auto, using(crate::proofs::PlacementLaws::placed_laws), unfolding(crate::specs::Placement::placement_of))]
pub fn place(alloc: Global, design: &Design, rows: &Rows) -> Result<Placement, AllocError>
    requires { ArePlaced design.now rows.now }
    ensures { IfOk result (λ placement. placement ≡ placement_of design.now rows.now) }
{
    // The bounds of the design's type are known once a field is read.
    let _pins = &design.pins;
    let places = pin_places(alloc, design, rows)?;
    let count = design.nets.items().len();
    let nets = net_places(alloc, count, places.as_slice())?;
    let pins = placed_pins(alloc, nets.as_slice(), places.as_slice())?;
    Ok(Placement {
        pins: Items::new(pins),
        nets: Items::new(nets),
    })
}

// Where so many nets stand, by where all pins do.
#[tactic(auto, using(crate::proofs::PlacementLaws::range_laws))]
fn net_places(alloc: Global, count: usize, pins: &[PinPlace]) -> Result<Vec<NetPlace>, AllocError>
    requires { count ≤ MOST_PINS }
    ensures { IfOk result (λ v. v.items ≡ nets_among pins.now count) }
{
    let lists = pins_by_net(alloc, count + 1, pins)?;
    let mut nets = Vec::new(alloc);
    for net in 1..count + 1 {
        nets.push(net_place(alloc, lists.at(net))?)?;
    }
    Ok(nets)
}

// The pins of each net, by the numbers of the nets.
fn pins_by_net(
    alloc: Global,
    count: usize,
    pins: &[PinPlace],
) -> Result<Lists<PinPlace>, AllocError>
    ensures { IfOk result (λ lists. (net : ℕ) → net < count → slice_get lists net ≡ Some (of_net net pins.now)) }
{
    let mut lists = Lists::new(alloc, count)?;
    let mut rest = pins;
    while let Some((pin, after)) = rest.split_first() {
        lists.push(pin.pin.net as usize, *pin)?;
        rest = after;
    }
    Ok(lists)
}

// The pins with the crossings of their nets, and whether they are through pins of these.
fn placed_pins(
    alloc: Global,
    nets: &[NetPlace],
    places: &[PinPlace],
) -> Result<Vec<PlacedPin>, AllocError>
    ensures { IfOk result (λ v. v.items ≡ map (placed_by nets.now) places.now) }
{
    places
        .iter()
        .map(|place| placed_by(nets, *place))
        .collect(alloc)
}

// A pin with the crossing of its net, and whether it is a through pin of it.
fn placed_by(nets: &[NetPlace], place: PinPlace) -> PlacedPin
    ensures { result ≡ placed_by nets.now place }
{
    let (crossing, through) = match net_at(nets, place.pin.net) {
        Some(net) => (
            net.crossing,
            is_pin(place.pin, net.through_pin(u32::from(place.row))),
        ),
        None => (Crossing::Alone, false),
    };
    PlacedPin {
        place,
        crossing,
        through,
    }
}

/// The net with this number, if there is one.
pub(crate) fn net_at(nets: &[NetPlace], net: u32) -> Option<&NetPlace>
    ensures { option_map (λ n. n.now) result ≡ at_net nets.now net }
{
    if net == 0 {
        return None;
    }
    nets.get(net as usize - 1)
}

// Whether two pins are one.
fn is_pin(pin: Pin, other: Option<Pin>) -> bool
    ensures { result ≡ is_pin pin other }
{
    match other {
        Some(other) => pin.instance == other.instance && pin.terminal == other.terminal,
        None => false,
    }
}
