//! Rows with their cost, in which cells change places or turn over, also only where the cost rises by little enough.

use crate::building::standings_of;
use crate::moving::{enter_reach, exchange_seats, turn_seat};
use crate::net_costs::NetCosts;
use crate::row_lengths::RowLengths;
use crate::trial::{is_dear, total_of};
use crate::weights::Weights;
use design_model::Design;
use row_model::{PlacedRows, Rows};
use std::alloc::{AllocError, Global};
use std::marker::Model;

/// Rows of a design with their cost, which is kept while the rows change: for each net how far its pins spread, and for each instance where it stands.
/// Contracts see the design, the rows and the weights.
#[derive(Drop)]
pub struct Spans<'d> {
    rows: Rows,
    costs: NetCosts<'d>,
    lengths: RowLengths,
}

impl<'d> Model for Spans<'d> {
    ghost use Rattle.row_board.specs.WeighedRows.{WeighedRows};

    ghost Value = { WeighedRows };

    ghost use Rattle.row_board.specs.SpansView.{weighed_in, AreSpans};

    ghost view = { weighed_in };

    ghost invariant = { AreSpans };
}

impl<'d> Spans<'d> {
    ghost use Rattle.row_model.specs.Changes.{mirrored, swapped};
    ghost use Rattle.row_board.specs.Cost.{cost_of};
    ghost use Rattle.row_model.specs.Rows.{ArePlaced};
    ghost use Rattle.row_board.specs.WeighedRows.{WeighedRows};
    ghost use Rattle.std.specs.Bool.{OnFalse, OnTrue};
    ghost use Rattle.std.specs.Prelude.{◌≡◌, ◌<◌, ◌+◌, ◌^◌, length, IfOk, nat_le};

    /// These rows of a design with their cost. All memory is taken here. The one error is want of memory, which gives the rows up.
    pub fn new(
        alloc: Global,
        design: &'d Design,
        rows: Rows,
        weights: Weights,
    ) -> Result<Spans<'d>, AllocError>
        requires { ArePlaced design.now rows }
        ensures { IfOk result (λ s. s ≡ record { design = design.entry.now; rows = rows; weights = weights }) }
    {
        let placed = PlacedRows::new(design, &rows);
        let standings = standings_of(alloc, &placed)?;
        let lengths = RowLengths::of(alloc, &placed)?;
        let costs = NetCosts::new(alloc, design, weights, standings)?;
        Ok(Spans {
            rows,
            costs,
            lengths,
        })
    }

    /// What the rows cost, in columns. Takes no memory.
    pub fn cost(&self) -> u64
        ensures is { result ≡ cost_of self.now.design self.now.rows self.now.weights }
        ensures few { result < 2 ^ 58 }
    {
        total_of(&self.costs, &self.lengths)
    }

    /// The rows, which hold each instance of the design once. Takes no memory.
    pub fn rows(&self) -> &Rows
        ensures is { result.now ≡ self.now.rows }
        ensures placed { ArePlaced self.now.design self.now.rows }
    {
        &self.rows
    }

    /// Two instances, by their numbers, exchange their places, each with its mirror. Takes no memory.
    pub fn swap(&mut self, a: u32, b: u32)
        requires a { a < length self.old.design.instances }
        requires b { b < length self.old.design.instances }
        ensures { self.new ≡ record self.old { rows = swapped a b self.old.rows } }
    {
        // What every value keeps is known once a field is read.
        let _rows = &self.rows;
        if a == b {
            return;
        }
        let one = self.costs.standing(a).row;
        let other = self.costs.standing(b).row;
        let width = self.costs.columns_of(a);
        let other_width = self.costs.columns_of(b);
        let rows = &mut self.rows;
        let seats = rows.rows.items_mut();
        let (first, second) = exchange_seats(seats, &self.costs, a, b);
        enter_reach(&mut self.costs, seats, first);
        enter_reach(&mut self.costs, seats, second);
        self.lengths.change(one, other_width, width);
        self.lengths.change(other, width, other_width);
    }

    /// An instance, by its number, is turned over. Takes no memory.
    pub fn mirror(&mut self, a: u32)
        requires { a < length self.old.design.instances }
        ensures { self.new ≡ record self.old { rows = mirrored a self.old.rows } }
    {
        let rows = &mut self.rows;
        let seats = rows.rows.items_mut();
        let reach = turn_seat(seats, &self.costs, a);
        enter_reach(&mut self.costs, seats, reach);
    }

    // Whether the rows surely cost more than so much more than before after a swap of two instances, of which one is wider. All stays as it is.
    fn is_too_dear(&mut self, a: u32, b: u32, most: u64) -> bool
        requires a { a < length self.old.design.instances }
        requires b { b < length self.old.design.instances }
        ensures dear { OnTrue result (cost_of self.old.design self.old.rows self.old.weights + most < cost_of self.old.design (swapped a b self.old.rows) self.old.weights) }
        ensures left { self.new ≡ self.old }
    {
        // Where both are of one width, a swap shifts no other and is soon taken back.
        if self.costs.columns_of(a) == self.costs.columns_of(b) {
            return false;
        }
        let limit = total_of(&self.costs, &self.lengths).saturating_add(most);
        let rows = &self.rows;
        is_dear(
            &mut self.costs,
            &self.lengths,
            rows.rows.items(),
            a,
            b,
            limit,
        )
    }

    /// Two instances exchange their places, each with its mirror, exactly where the rows then cost at most so much more than before. Whether
    /// they did. Takes no memory.
    pub fn swap_within(&mut self, a: u32, b: u32, most: u64) -> bool
        requires a { a < length self.old.design.instances }
        requires b { b < length self.old.design.instances }
        ensures is { result ≡ nat_le (cost_of self.old.design (swapped a b self.old.rows) self.old.weights) (cost_of self.old.design self.old.rows self.old.weights + most) }
        ensures done { OnTrue result (self.new ≡ record self.old { rows = swapped a b self.old.rows }) }
        ensures left { OnFalse result (self.new ≡ self.old) }
    {
        // What every value keeps is known once a field is read.
        let _rows = &self.rows;
        if self.is_too_dear(a, b, most) {
            return false;
        }
        let limit = self.cost().saturating_add(most);
        self.swap(a, b);
        if self.cost() <= limit {
            return true;
        }
        self.swap(a, b);
        false
    }

    /// An instance is turned over, exactly where the rows then cost at most so much more than before. Whether it was. Takes no memory.
    pub fn mirror_within(&mut self, a: u32, most: u64) -> bool
        requires { a < length self.old.design.instances }
        ensures is { result ≡ nat_le (cost_of self.old.design (mirrored a self.old.rows) self.old.weights) (cost_of self.old.design self.old.rows self.old.weights + most) }
        ensures done { OnTrue result (self.new ≡ record self.old { rows = mirrored a self.old.rows }) }
        ensures left { OnFalse result (self.new ≡ self.old) }
    {
        // What every value keeps is known once a field is read.
        let _rows = &self.rows;
        let limit = self.cost().saturating_add(most);
        self.mirror(a);
        if self.cost() <= limit {
            return true;
        }
        self.mirror(a);
        false
    }

    /// The rows, as they are last. Takes no memory.
    pub fn end(self) -> Rows
        ensures is { result ≡ self.entry.rows }
        ensures placed { ArePlaced self.entry.design result }
    {
        self.rows
    }
}
