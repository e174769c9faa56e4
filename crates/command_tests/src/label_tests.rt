//! Layouts with labels.

use crate::support::{inverter_shelf, is_done, is_ended, shelf_of, text_with};
use samples::{INVERTER, RULES};
use shelf_io::MemShelf;
use std::alloc::{AllocError, Global};
use std::test::Fail;

/// The layout of one inverter: the label of its cell in the middle of the outline, and that of its net in the middle of the pin.
const LABELLED: &str =
    "(cellroute 1);\nDS 1 1 1;\n9 INV;\nL XP;\nB 800 4000 400 2000;\nL NP;\nB 300 400 400 200;\nDF;\n91 u1;\nC 1 T 0 800;\nL XP;\n94 u1 400 2800;\nL NP;\n94 n1 400 1000;\nE\n";

#[test]
fn an_inverter_with_labels(rt: HostRuntime) -> Result<(), Fail> {
    let mut shelf = inverter_shelf(rt.alloc())?;
    assert!(rt; is_done(rt.alloc(), "route|d|r|o|--labels", &mut shelf)?);
    assert!(rt; shelf.get("o") == Some(LABELLED.as_bytes()));
    assert!(rt; is_ended(rt.alloc(), "check|d|r|o", &mut shelf, 0, "findings 0\n")?);
    Ok(())
}

/// What stands behind the channel below three cells: the first two are on one net, on the one track there, and its label stands at the first pin.
const BEHIND: &str = "\
91 u1;
C 1 T 0 1600;
L XP;
94 u1 400 3600;
L NP;
94 n 400 1800;
91 u2;
C 1 T 800 1600;
L XP;
94 u2 1200 3600;
91 u3;
C 1 T 1600 1600;
94 u3 2000 3600;
L NP;
94 m 2000 1800;
E
";

#[test]
fn a_net_has_one_label(rt: HostRuntime) -> Result<(), Fail> {
    let calls = "u1 INV n;\nu2 INV n;\nu3 INV m;\n";
    let mut shelf = shelf_of(rt.alloc(), RULES, INVERTER, calls)?;
    assert!(rt; is_done(rt.alloc(), "route|d|r|o|--labels|--rows|1", &mut shelf)?);
    let text = shelf.get("o").unwrap_or(b"");
    assert!(rt; text.ends_with(BEHIND.as_bytes()));
    assert!(rt; is_ended(rt.alloc(), "check|d|r|o", &mut shelf, 0, "findings 0\n")?);
    Ok(())
}

/// That layout of one inverter as KLayout (0.28.5) saves it: in tenths of a centimicron, without the name of the call, and without a main level.
const SAVED: &str = "\
(CIF file written by KLayout);
DS 1 1 10;
9 INV;
L XP;
B 8000 40000 4000,20000;
L NP;
B 3000 4000 4000,2000;
DF;
DS 2 1 10;
9 CIF_TOP;
C1 R1,0 T0,8000;
L XP;
94 u1 4000,28000 0;
L NP;
94 n1 4000,10000 0;
DF;
E
";

#[test]
fn a_layout_that_klayout_saved(rt: HostRuntime) -> Result<(), Fail> {
    let mut shelf = inverter_shelf(rt.alloc())?;
    shelf.set("c", SAVED.as_bytes())?;
    assert!(rt;
        is_ended(
            rt.alloc(),
            "check|d|r|c|--labels",
            &mut shelf,
            0,
            "findings 0\n"
        )?
    );
    assert!(rt;
        is_ended(
            rt.alloc(),
            "check|d|r|c",
            &mut shelf,
            1,
            "Missing u1\nfindings 1\n"
        )?
    );
    Ok(())
}

/// A layout of three inverters in three rows, of which the first and the last are on one net, which passes two rows by feeds, as Magic (8.3) saves it: in quarters of a micron, from the top on, with names that it
/// made up for the symbol and the calls of the feed, and each layer in strips.
const BY_MAGIC: &str = "\
DS 1 50 2;
9 UNNAMED;
L NM;
    B 16 2 16 39;
    B 16 2 48 39;
    B 48 12 32 32;
    B 16 2 16 25;
    B 16 2 48 25;
L NP;
    B 12 32 16 432;
    B 12 32 16 240;
    B 12 24 16 52;
    B 12 24 48 52;
    B 16 16 16 32;
    B 16 16 48 32;
L NC;
    B 8 8 16 32;
    B 8 8 48 32;
94 u1 48 144;
94 n 48 72;
94 u2 48 336;
94 m 48 264;
94 u3 16 528;
91 u3;
C 2 R 1 0 T 0 448;
91 u2;
C 2 R 1 0 T 32 256;
91 2_1;
C 3 R 1 0 T 0 256;
91 u1;
C 2 R 1 0 T 32 64;
91 2_0;
C 3 R 1 0 T 0 64;
DF;
DS 3 50 2;
9 2;
L NP;
    B 12 160 16 80;
L XP;
    B 32 160 16 80;
DF;
DS 2 50 2;
9 INV;
L NP;
    B 12 16 16 8;
L XP;
    B 32 160 16 80;
DF;
C 1;
End
";

/// The design of these inverters, and that layout with one piece of its text replaced.
fn saved_by_magic(alloc: Global, old: &str, new: &str) -> Result<MemShelf, AllocError> {
    let mut shelf = shelf_of(alloc, RULES, INVERTER, "u1 INV n;\nu2 INV m;\nu3 INV n;\n")?;
    let text = text_with(alloc, BY_MAGIC, old, new)?;
    shelf.set("c", text.as_bytes())?;
    Ok(shelf)
}

#[test]
fn a_layout_that_magic_saved(rt: HostRuntime) -> Result<(), Fail> {
    let good = "findings 0\n";
    let mut shelf = saved_by_magic(rt.alloc(), "(", "(")?;
    assert!(rt; is_ended(rt.alloc(), "check|d|r|c|--labels", &mut shelf, 0, good)?);
    // Without its upper strip a pad does not enclose its cut.
    let bare = "BareCut 13\nfindings 1\n";
    let mut shelf = saved_by_magic(rt.alloc(), "    B 16 2 16 39;\n", "")?;
    assert!(rt; is_ended(rt.alloc(), "check|d|r|c|--labels", &mut shelf, 1, bare)?);
    // Without the wire between the pads the net is open.
    let open = "Open u1 a u3 a\nfindings 1\n";
    let mut shelf = saved_by_magic(
        rt.alloc(),
        "    B 48 12 32 32;\n",
        "    B 16 12 16 32;\n    B 16 12 48 32;\n",
    )?;
    assert!(rt; is_ended(rt.alloc(), "check|d|r|c|--labels", &mut shelf, 1, open)?);
    Ok(())
}
