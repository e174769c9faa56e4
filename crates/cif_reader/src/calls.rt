//! The call of a symbol at a level: its turn, its depth, and the limits that its shapes may pass.

ghost use Rattle.cif_reader.specs.Levels.{call_of, call_with, depth_above};
ghost use Rattle.cif_reader.specs.Refusals.{Answers};
ghost use Rattle.cif_reader.specs.Sides.{IsNearTurn};
ghost use Rattle.cif_reader.specs.Table.{symbol_at};
ghost use Rattle.cif_reader.specs.Tabled.{IsPlaceOf};
ghost use Rattle.cif_text.specs.Symbols.{symbol_of};
ghost use Rattle.std.specs.Prelude.{◌≡◌, IfOk};

use crate::fault::ExpandKind;
use crate::found::Found;
use crate::limit_passing::limit_passed;
use crate::near_turn::NearTurn;
use crate::refusal::ExpandStop;
use crate::scales::WideTurn;
use crate::symbol_table::SymbolTable;
use limits::DEEPEST;
use std::alloc::Global;

/// A call that a level may have: its symbol, and its turn.
#[derive(Clone, Copy)]
pub(crate) struct CalledSymbol<'t> {
    pub(crate) symbol: Found<'t>,
    pub(crate) turn: NearTurn,
}

/// The turn of a call of a symbol, which gives its shapes to a level that has so many before it.
fn allowed_turn(
    alloc: Global,
    symbol: &Found,
    before: usize,
    turn: &WideTurn,
) -> Result<NearTurn, ExpandStop>
    ensures gives { Answers (λ t. (symbol_at symbol.now.table.now.symbols symbol.now.place, t)) result
        (call_with before (symbol_at symbol.now.table.now.symbols symbol.now.place) turn.now) }
    ensures near { IfOk result (λ t. IsNearTurn t) }
{
    let turn = match NearTurn::new(turn) {
        Ok(turn) => turn,
        Err(z) => return Err(ExpandStop::Because(ExpandKind::TooFar(z))),
    };
    let far = symbol.far_copy(alloc, &turn)?;
    match limit_passed(far, before, symbol.kept().count) {
        Some(kind) => Err(ExpandStop::Because(kind)),
        None => Ok(turn),
    }
}

/// The call of the symbol of this number.
#[tactic(auto, unfolding(crate::specs::Levels::call_of))]
pub(crate) fn called(
    alloc: Global,
    table: &SymbolTable,
    before: usize,
    n: u64,
    turn: Option<WideTurn>,
) -> Result<CalledSymbol<'_>, ExpandStop>
    ensures gives { Answers (λ call. (symbol_at table.now.symbols call.symbol.place, call.turn)) result
        (call_of n before (symbol_of n table.now.symbols) turn) }
    ensures same { IfOk result (λ call. call.symbol.table.now ≡ table.now) }
    ensures place { IfOk result (λ call. IsPlaceOf n table.now call.symbol.place) }
    ensures near { IfOk result (λ call. IsNearTurn call.turn) }
{
    let Some(symbol) = Found::by_number(table, n) else {
        return Err(ExpandStop::Because(ExpandKind::Undefined(n)));
    };
    let Some(turn) = turn else {
        return Err(ExpandStop::Because(ExpandKind::Inexact));
    };
    match allowed_turn(alloc, &symbol, before, &turn) {
        Ok(turn) => Ok(CalledSymbol { symbol, turn }),
        Err(refusal) => Err(refusal),
    }
}

/// The depth that a call of a symbol of this depth makes.
pub(crate) fn depth_above(depth: u32) -> Result<u32, ExpandKind>
    ensures { result ≡ depth_above depth }
{
    if depth >= DEEPEST {
        return Err(ExpandKind::TooDeep);
    }
    Ok(depth + 1)
}
