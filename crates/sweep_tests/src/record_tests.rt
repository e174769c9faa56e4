//! The records of the columns of a small sweep, as it keeps them.

use crate::worked_tests::routed_crossed;
use greedy_column::Made;
use greedy_router::{Columns, LentColumn};
use std::test::Fail;

// A column that does nothing.
const NOTHING: LentColumn<'static> = LentColumn {
    made: &[],
    top: 0,
    bottom: 0,
    straight: false,
    joins: &[],
    ended: &[],
    moves: &[],
};

// The channel with bottom pins 1, 2 and top pins 2, 1: two columns and one past the end.
const CROSSED: [LentColumn<'static>; 3] = [
    LentColumn {
        made: &[Made { id: 1, below: 0 }, Made { id: 2, below: 1 }],
        top: 2,
        bottom: 1,
        ..NOTHING
    },
    LentColumn {
        made: &[Made { id: 3, below: 2 }],
        top: 3,
        bottom: 2,
        ended: &[2],
        ..NOTHING
    },
    LentColumn {
        joins: &[(1, 3)],
        ended: &[1, 3],
        ..NOTHING
    },
];

fn is_wanted(column: &LentColumn, wanted: &LentColumn) -> bool {
    column.made == wanted.made
        && (column.top, column.bottom, column.straight)
            == (wanted.top, wanted.bottom, wanted.straight)
        && column.joins == wanted.joins
        && column.ended == wanted.ended
        && column.moves == wanted.moves
}

fn has(columns: &Columns, number: usize, wanted: &LentColumn) -> bool {
    match columns.column(number) {
        Some(column) => is_wanted(&column, wanted),
        None => false,
    }
}

// Whether these are the records, with none at their end and none far beyond it.
fn are_wanted(columns: &Columns, wanted: &[LentColumn]) -> bool {
    columns.len() == wanted.len()
        && wanted
            .iter()
            .enumerate()
            .all(|(number, one)| has(columns, number, one))
        && columns.column(wanted.len()).is_none()
        && columns.column(usize::MAX).is_none()
}

#[test]
fn the_records_of_a_vertical_cycle(rt: HostRuntime) -> Result<(), Fail> {
    let routed = routed_crossed(rt.alloc(), 4, 2)?;
    assert!(rt; are_wanted(&routed.sweep.columns, &CROSSED));
    assert!(rt; !routed.sweep.columns.is_empty());
    Ok(())
}

#[test]
fn no_records(rt: HostRuntime) -> Result<(), Fail> {
    let columns = Columns::pack(rt.alloc(), &[])?;
    assert!(rt; columns.is_empty());
    assert!(rt; are_wanted(&columns, &[]));
    Ok(())
}

#[test]
fn no_records_from_the_start(rt: HostRuntime) -> Result<(), Fail> {
    assert!(rt; are_wanted(&Columns::new(rt.alloc()), &[]));
    Ok(())
}
