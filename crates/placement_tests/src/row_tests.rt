//! Rows of instances.

ghost use Rattle.row_model.specs.Rows.{ArePlaced};

use design_model::Design;
use row_board::Weights;
use row_model::{
    PinPlace, Rows, Seat, cell_height, column_of, columns_of, default_rows, pin_place, pin_places,
    start,
};
use samples::{CELLS, designed, sample_rules};
use std::alloc::{AllocError, Global};
use std::test::Fail;
use tech_rules::StartBy;

/// A cell of 1,305,605 columns: the area of 511 by 511 rows.
const WIDE: &str =
    "MODULE WIDE; TYPE STANDARD; DIMENSIONS 0 0 10444840 0 10444840 40 0 40; IOLIST; a I 4 0 3 POLY; ENDIOLIST; ENDMODULE;";

/// A DRV, two INV and a DRV: 6 columns.
const FOUR: &str = "u DRV VDD x y; v INV y; w INV z; t DRV VDD y z;";

/// The instances of rows, none of them mirrored, row by row.
fn are_rows(rows: &Rows, instances: &[&[u32]]) -> bool {
    if rows.rows.items().len() != instances.len() {
        return false;
    }
    for (seats, row) in rows.rows.items().iter().zip(instances) {
        if !are_seats(seats.items(), row) {
            return false;
        }
    }
    true
}

fn are_seats(seats: &[Seat], instances: &[u32]) -> bool {
    if seats.len() != instances.len() {
        return false;
    }
    for (seat, instance) in seats.iter().zip(instances) {
        if seat.instance != *instance || seat.mirror {
            return false;
        }
    }
    true
}

/// Calls, the rows into which they go, and the columns of their pins.
struct Started {
    by: StartBy,
    calls: &'static str,
    rows: &'static [&'static [u32]],
    columns: &'static [u64],
}

const STARTED: [Started; 9] = [
    Started {
        by: StartBy::Width,
        calls: FOUR,
        rows: &[&[0], &[1, 2], &[3], &[]],
        columns: &[0, 1, 0, 1, 0, 1],
    },
    Started {
        by: StartBy::Width,
        calls: FOUR,
        rows: &[&[0, 1], &[2, 3]],
        columns: &[0, 1, 2, 0, 1, 2],
    },
    Started {
        by: StartBy::Width,
        calls: FOUR,
        rows: &[&[0, 1, 2, 3]],
        columns: &[0, 1, 2, 3, 4, 5],
    },
    Started {
        by: StartBy::Width,
        calls: "u INV x; v INV x; w INV x;",
        rows: &[&[0, 1], &[2]],
        columns: &[0, 1, 0],
    },
    Started {
        by: StartBy::Width,
        calls: "",
        rows: &[&[]],
        columns: &[],
    },
    Started {
        by: StartBy::Width,
        calls: "",
        rows: &[&[], &[], &[]],
        columns: &[],
    },
    Started {
        by: StartBy::Count,
        calls: "u INV x; v INV x; w INV x;",
        rows: &[&[0], &[1, 2]],
        columns: &[0, 0, 1],
    },
    Started {
        by: StartBy::Count,
        calls: "u INV x; v INV x; w INV x; x INV x; y INV x;",
        rows: &[&[0], &[1, 2], &[3, 4]],
        columns: &[0, 0, 1, 0, 1],
    },
    Started {
        by: StartBy::Count,
        calls: "u INV x;",
        rows: &[&[], &[], &[0]],
        columns: &[0],
    },
];

/// Whether the pins of a design have these columns.
fn are_columns(design: &Design, rows: &Rows, columns: &[u64]) -> bool
    requires { ArePlaced design.now rows.now }
{
    let count = design.pins.items().len();
    for (pin, column) in columns.iter().enumerate() {
        if pin >= count || column_of(design, rows, pin as u32) != *column {
            return false;
        }
    }
    count == columns.len()
}

/// Whether a design goes into the rows of a case, with its columns.
fn starts_so(alloc: Global, design: &Design, case: &Started) -> Result<bool, Fail> {
    let count = case.rows.len();
    if count == 0 || count > 512 {
        return Ok(false);
    }
    let rows = start(alloc, design, count as u32, case.by)?;
    Ok(are_rows(&rows, case.rows) && are_columns(design, &rows, case.columns))
}

/// Whether the calls of a case do.
fn is_started(alloc: Global, case: &Started) -> Result<bool, Fail> {
    let design = designed(alloc, CELLS, case.calls)?;
    starts_so(alloc, &design, case)
}

/// Whether four cells are alone in the first of 512 rows.
fn are_mostly_empty(rows: &Rows) -> bool {
    for (i, seats) in rows.rows.items().iter().enumerate() {
        if i < 4 {
            if !are_seats(seats.items(), &[i as u32]) {
                return false;
            }
        } else if !seats.items().is_empty() {
            return false;
        }
    }
    rows.rows.items().len() == 512
}

/// Whether four cells go so into 512 rows.
fn start_mostly_empty(alloc: Global, design: &Design) -> Result<bool, Fail> {
    let rows = start(alloc, design, 512, StartBy::Width)?;
    Ok(are_mostly_empty(&rows))
}

#[test]
fn rows_take_instances_in_order(rt: HostRuntime) -> Result<(), Fail> {
    for (i, case) in STARTED.iter().enumerate() {
        assert!(rt; is_started(rt.alloc(), case)?, "case {i}");
    }
    Ok(())
}

#[test]
fn more_rows_than_instances_are_mostly_empty(rt: HostRuntime) -> Result<(), Fail> {
    let design = designed(rt.alloc(), CELLS, FOUR)?;
    assert!(rt; start_mostly_empty(rt.alloc(), &design)?);
    Ok(())
}

/// The calls of so many INV.
fn inverters(alloc: Global, count: u32) -> Result<String, AllocError> {
    let mut calls = String::new(alloc);
    for i in 0..count {
        calls.push_str(&format!(in alloc; "i{i} INV n;")?)?;
    }
    Ok(calls)
}

/// As many rows as make the layout of a design about square.
fn rows_of(alloc: Global, design: &Design) -> Result<u32, Fail> {
    let rules = sample_rules(alloc)?;
    Ok(default_rows(design, &rules))
}

/// The same of these modules and calls.
fn rows_of_calls(alloc: Global, modules: &str, calls: &str) -> Result<u32, Fail> {
    let design = designed(alloc, modules, calls)?;
    rows_of(alloc, &design)
}

/// The same of so many INV.
fn rows_of_inverters(alloc: Global, count: u32) -> Result<u32, Fail> {
    let calls = inverters(alloc, count)?;
    rows_of_calls(alloc, CELLS, calls.as_str())
}

/// The same of these calls, also of WIDE.
fn rows_of_wide(alloc: Global, calls: &str) -> Result<u32, Fail> {
    let modules = format!(in alloc; "{CELLS}{WIDE}")?;
    rows_of_calls(alloc, modules.as_str(), calls)
}

/// Numbers of columns, and how many rows they go into: a column is 8 units wide and a cell 40 high, so that K rows do for 5 * K * K columns.
const SQUARE: [(u32, u32); 10] = [
    (0, 1),
    (1, 1),
    (5, 1),
    (6, 2),
    (20, 2),
    (21, 3),
    (45, 3),
    (46, 4),
    (500, 10),
    (501, 11),
];

#[test]
fn as_many_rows_as_are_square(rt: HostRuntime) -> Result<(), Fail> {
    for (columns, rows) in &SQUARE {
        assert!(rt;
            rows_of_inverters(rt.alloc(), *columns)? == *rows,
            "{columns} columns"
        );
    }
    Ok(())
}

#[test]
fn at_most_512_rows(rt: HostRuntime) -> Result<(), Fail> {
    assert!(rt; rows_of_wide(rt.alloc(), "u WIDE x;")? == 511);
    assert!(rt; rows_of_wide(rt.alloc(), "u WIDE x; v INV x;")? == 512);
    assert!(rt; rows_of_wide(rt.alloc(), "u WIDE x; v WIDE x;")? == 512);
    Ok(())
}

/// Whether a design has four instances, of 2, 1, 1 and 2 columns, 40 units high, and no fifth.
fn have_widths(design: &Design) -> bool {
    design.instances.items().len() == 4
        && columns_of(design, 0) == 2
        && columns_of(design, 1) == 1
        && columns_of(design, 2) == 1
        && columns_of(design, 3) == 2
        && cell_height(design, 0) == 40
        && cell_height(design, 3) == 40
        && cell_height(design, 4) == 0
}

/// Whether weights are those that they are made of.
fn are_weights() -> bool {
    let weights = Weights {
        row_cost: 1_000,
        length_cost: 0,
    };
    weights.row_cost == 1_000 && weights.length_cost == 0
}

#[test]
fn instances_have_widths_and_weights_are_kept(rt: HostRuntime) -> Result<(), Fail> {
    let design = designed(rt.alloc(), CELLS, FOUR)?;
    assert!(rt; have_widths(&design));
    assert!(rt; are_weights());
    Ok(())
}

/// A cell of three columns whose first terminal has positions on both edges, and whose second has one below.
const SIDES: &str =
    "MODULE SIDES; TYPE STANDARD; DIMENSIONS 0 0 24 0 24 40 0 40; IOLIST; a B 12 40 3 POLY; b I 12 0 3 POLY; a B 4 0 3 POLY; a B 20 0 3 POLY; ENDIOLIST; ENDMODULE;";

/// A design of one such cell and an INV.
fn sided(alloc: Global) -> Result<Design, Fail> {
    let modules = format!(in alloc; "{SIDES}{CELLS}")?;
    Ok(designed(alloc, modules.as_str(), "u SIDES n m; v INV n;")?)
}

/// The row, the columns on the lower and the upper edge, and the column of a pin.
type Place = (u16, Option<u32>, Option<u32>, u64);

/// Whether a pin stands there.
fn is_at(place: PinPlace, wanted: Place) -> bool {
    place.row == wanted.0
        && place.bottom == wanted.1
        && place.top == wanted.2
        && place.column == wanted.3
}

/// Whether the pins of a design in rows stand there, one by one.
fn are_each_at(design: &Design, rows: &Rows, wanted: &[Place]) -> bool
    requires { ArePlaced design.now rows.now }
{
    for (pin, want) in design.pins.items().iter().zip(wanted) {
        if !is_at(pin_place(design, rows, *pin), *want) {
            return false;
        }
    }
    true
}

/// Whether places are those.
fn are_places(places: &[PinPlace], wanted: &[Place]) -> bool {
    for (place, want) in places.iter().zip(wanted) {
        if !is_at(*place, *want) {
            return false;
        }
    }
    places.len() == wanted.len()
}

/// Whether the pins of a design in rows stand there, one by one and all at once.
fn are_at(alloc: Global, design: &Design, rows: &Rows, wanted: &[Place]) -> Result<bool, Fail>
    requires { ArePlaced design.now rows.now }
{
    let places = pin_places(alloc, design, rows)?;
    Ok(are_each_at(design, rows, wanted) && are_places(places.as_slice(), wanted))
}

/// Whether the pins of a design stand there in so many rows.
fn stand_in_rows(
    alloc: Global,
    design: &Design,
    count: u32,
    wanted: &[Place],
) -> Result<bool, Fail> {
    if count == 0 || count > 512 {
        return Ok(false);
    }
    let rows = start(alloc, design, count, StartBy::Width)?;
    are_at(alloc, design, &rows, wanted)
}

/// Whether the pins of that design do.
fn are_sided(alloc: Global, count: u32, wanted: &[Place]) -> Result<bool, Fail> {
    let design = sided(alloc)?;
    stand_in_rows(alloc, &design, count, wanted)
}

/// Where the pins of that design stand in one row and in two.
const IN_ONE: [Place; 3] = [
    (0, Some(0), Some(1), 1),
    (0, Some(1), None, 1),
    (0, Some(0), None, 3),
];

const IN_TWO: [Place; 3] = [
    (0, Some(0), Some(1), 1),
    (0, Some(1), None, 1),
    (1, Some(0), None, 0),
];

#[test]
fn pins_stand_in_rows_on_each_edge(rt: HostRuntime) -> Result<(), Fail> {
    assert!(rt; are_sided(rt.alloc(), 1, &IN_ONE)?);
    assert!(rt; are_sided(rt.alloc(), 2, &IN_TWO)?);
    Ok(())
}
