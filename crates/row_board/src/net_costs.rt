//! What each net costs by a table of where instances stand, with the sum, as instances are put elsewhere.

ghost use Rattle.row_board.specs.PinPlaces.{columns_by, rows_by};
ghost use Rattle.std.specs.Prelude.{◌≡◌, IfOk};

use crate::extreme::Side;
use crate::nets::Nets;
use crate::pin_places::{column_of, places_of, put_columns, put_rows, standing_of};
use crate::spreads::Spreads;
use crate::standings::Standing;
use crate::weights::Weights;
use design_model::Design;
use limits::{MOST_KIND_COLUMNS, MOST_PINS};
use std::alloc::{AllocError, Global};
use std::marker::Model;

/// Pins weighed against one another: over are those that may make their nets shorter, under are those that do not or surely make theirs longer.
#[derive(Clone, Copy)]
pub(crate) struct Balance {
    pub(crate) over: u64,
    pub(crate) under: u64,
}

/// What the nets of a design cost by a table of where its instances stand, which is kept while instances are put elsewhere. Contracts see the design, the weights and the
/// table.
#[derive(Drop)]
pub(crate) struct NetCosts<'d> {
    nets: Nets<'d>,
    weights: Weights,
    standings: Vec<Standing>,
    columns: Spreads,
    rows: Spreads,
}

impl<'d> Model for NetCosts<'d> {
    ghost use Rattle.row_board.specs.NetCosts.{Tabled};

    ghost Value = { Tabled };

    ghost use Rattle.row_board.specs.NetCostsView.{tabled_in, AreCosts};

    ghost view = { tabled_in };

    ghost invariant = { AreCosts };
}

// The columns and the rows of the pins of each net, from net 0 on.
fn places_by(
    alloc: Global,
    nets: &Nets,
    standings: &[Standing],
) -> Result<(Spreads, Spreads), AllocError>
    ensures columns { IfOk result (λ places. places.0 ≡ record { most = 2004294967295; lists = columns_by nets.now standings.now }) }
    ensures rows { IfOk result (λ places. places.1 ≡ record { most = 513; lists = rows_by nets.now standings.now }) }
{
    let design = nets.design();
    let count = design.nets.items().len() + 1;
    let mut columns = Spreads::new(alloc, 2_004_294_967_295);
    let mut rows = Spreads::new(alloc, 513);
    for net in 0..count {
        let (net_columns, net_rows) = places_of(alloc, nets.pins(net), standings)?;
        columns = columns.with_list(net_columns.as_slice())?;
        rows = rows.with_list(net_rows.as_slice())?;
    }
    Ok((columns, rows))
}

impl<'d> NetCosts<'d> {
    ghost use Rattle.design_model.specs.Netlist.{IsNetlist};
    ghost use Rattle.row_board.specs.NetCosts.{Tabled, table_costs};
    ghost use Rattle.row_board.specs.Extreme.{across};
    ghost use Rattle.row_board.specs.NetPins.{pins_of_instance};
    ghost use Rattle.row_board.specs.Standings.{standing_of, traded};
    ghost use Rattle.row_board.specs.Trial.{ends_net, ends_net_alone, joined, marked_pins};
    ghost use Rattle.row_board.specs.Weights.{AreFew};
    ghost use Rattle.row_model.specs.Widths.{columns_of};
    ghost use Rattle.std.specs.Prelude.{◌≡◌, ◌<◌, ◌≤◌, ◌+◌, ◌*◌, ◌^◌, ℕ, length, slice_set, sum, IfOk};

    /// What the nets of a design cost by this table, which has each of its instances. The one error is want of memory.
    pub(crate) fn new(
        alloc: Global,
        design: &'d Design,
        weights: Weights,
        standings: Vec<Standing>,
    ) -> Result<NetCosts<'d>, AllocError>
        requires { length standings.items ≡ length design.now.instances }
        ensures { IfOk result (λ made. made ≡ record { design = design.entry.now; weights = weights; standings = standings.items }) }
    {
        // The bounds of the design's type are known once a field is read.
        let _pins = &design.pins;
        let nets = Nets::new(alloc, design)?;
        let (columns, rows) = places_by(alloc, &nets, standings.as_slice())?;
        Ok(NetCosts {
            nets,
            weights,
            standings,
            columns,
            rows,
        })
    }

    /// The design.
    pub(crate) fn design(&self) -> &'d Design
        ensures is { result.now ≡ self.now.design }
        ensures good { IsNetlist self.now.design }
    {
        self.nets.design()
    }

    /// What the nets are weighed by.
    pub(crate) fn weights(&self) -> Weights
        ensures is { result ≡ self.now.weights }
        ensures few { AreFew self.now.weights }
    {
        self.weights
    }

    /// Where an instance stands by the table.
    pub(crate) fn standing(&self, instance: u32) -> Standing
        ensures { result ≡ standing_of self.now.standings instance }
    {
        standing_of(self.standings.as_slice(), instance)
    }

    /// The sum of what the nets cost. Takes no memory.
    pub(crate) fn sum(&self) -> u64
        ensures is { result ≡ sum (table_costs self.now.design self.now.weights self.now.standings) }
        ensures small { result ≤ 2199023255552 * (MOST_PINS + 1) }
    {
        let weights = self.weights;
        self.columns.sum() + weights.row_cost * self.rows.sum()
    }

    /// An instance of the table is put there. Takes no memory, and steps as the number of its pins, but where the last pin of a net at one of its edges goes inwards.
    pub(crate) fn put(&mut self, instance: u32, standing: Standing)
        ensures { self.new ≡ record self.old { standings = slice_set self.old.standings instance standing } }
    {
        let n = instance as usize;
        if n < self.standings.len() {
            let was = self.standings[n];
            self.standings[n] = standing;
            let pins = self.nets.of(instance);
            put_columns(&mut self.columns, pins, standing);
            put_rows(&mut self.rows, pins, was.row, standing.row);
        }
    }

    /// Two instances take each other's place in the table, each with its mirror. No other is shifted. Takes no memory.
    pub(crate) fn trade(&mut self, a: u32, b: u32)
        ensures { self.new ≡ record self.old { standings = traded a b self.old.standings } }
    {
        let one = self.standing(a);
        let other = self.standing(b);
        self.put(a, other.taken_by(one));
        self.put(b, one.taken_by(other));
    }

    /// A number of pins that no instance has more of. Takes no memory.
    pub(crate) fn most_pins(&self) -> u64
        ensures all { (i : ℕ) → length (pins_of_instance self.now.design i) ≤ result }
        ensures few { result ≤ MOST_PINS }
    {
        self.nets.most_pins()
    }

    /// How many pins of an instance of the design are joined with others by their nets. Takes no memory.
    pub(crate) fn joined(&self, instance: u32) -> u64
        requires { instance < length self.now.design.instances }
        ensures is { result ≡ marked_pins self.now.design (joined self.now.design) instance }
        ensures few { result ≤ MOST_PINS }
    {
        self.nets.joined(instance)
    }

    /// A balance once the pins of an instance of the design are in it: those that end their nets on a side are over, those that are joined with others are under, and once more those that alone end
    /// their nets across. Takes no memory, and steps as the number of its pins.
    #[inline(always)]
    pub(crate) fn weighed(&self, side: Side, instance: u32, before: Balance) -> Balance
        requires there { instance < length self.now.design.instances }
        requires low { before.over < 2 ^ 63 }
        requires low_under { before.under < 2 ^ 63 }
        ensures over { result.over ≡ before.over + marked_pins self.now.design (ends_net self.now.design self.now.standings side) instance }
        ensures under { result.under ≡ before.under + (marked_pins self.now.design (joined self.now.design) instance + marked_pins self.now.design (ends_net_alone self.now.design self.now.standings (across side)) instance) }
        ensures few { result.over ≤ before.over + MOST_PINS }
        ensures few_under { result.under ≤ before.under + 2 * MOST_PINS }
    {
        let standing = self.standings[instance as usize];
        let mut found = Balance {
            over: before.over,
            under: before.under + self.nets.joined(instance),
        };
        let mut rest = self.nets.of(instance);
        while let Some((pin, after)) = rest.split_first() {
            let column = column_of(standing, *pin);
            let more = self.columns.ends(side, pin.net as usize, column);
            found.over += more.ends;
            found.under += more.alone;
            rest = after;
        }
        found
    }

    /// The width of an instance of the design in columns, 0 of any other.
    pub(crate) fn columns_of(&self, instance: u32) -> u32
        ensures width { result ≡ columns_of self.now.design instance }
        ensures few { result ≤ MOST_KIND_COLUMNS }
    {
        self.nets.columns_of(instance)
    }
}
