//! Designs made from a number. They follow a rule of their own, so that programs in other languages can make the same ones.

ghost use Rattle.row_model.specs.Rows.{ArePlaced};
ghost use Rattle.std.specs.Prelude.{◌<◌, ◌≤◌, IfOk};

use design_model::Design;
use rand_core::utils::NextWord;
use rand_pcg::Lcg64Xsh32;
use row_model::{Rows, start};
use samples::design_of;
use std::alloc::{AllocError, Global};
use std::test::Fail;
use tech_rules::StartBy;

/// What stands before the calls of a made design, and behind them.
const HEAD: &str =
    "MODULE made;\nTYPE PARENT;\nDIMENSIONS 0 0 1 0 1 1 0 1;\nPROFILE 0 0;\nIOLIST;\nENDIOLIST;\nNETWORK;\n";

const TAIL: &str = "ENDNETWORK;\nPLACEMENT;\nENDPLACEMENT;\nENDMODULE;\n";

/// Kind j of five under the sample rules: a cell of j + 2 columns, with a and b below in its first and its last column, and y and z above in its first two; in the widest z is
/// below in the third, too.
fn kind_text(alloc: Global, j: u32) -> Result<String, Fail>
    requires { j < 5 }
{
    let width = (j + 2) * 8;
    let last = (j + 1) * 8 + 4;
    let below = if j == 4 { "z B 20 0 3 POLY;\n" } else { "" };
    Ok(format!(in alloc;
        "MODULE M{j};\nTYPE STANDARD;\nDIMENSIONS 0 0 {width} 0 {width} 11 0 11;\nIOLIST;\na I 4 0 3 POLY;\nb I {last} 0 3 POLY;\ny O 4 11 3 POLY;\nz B 12 11 3 POLY;\n{below}vdd PWR;\nvss GND;\nENDIOLIST;\nENDMODULE;\n"
    )?)
}

/// The text of the design that a seed makes of so many cells. Cell i is of kind i mod 5; two words, modulo the number of cells, choose the nets of a and b among those that y
/// drives, one for each cell; and z joins four cells that follow one another.
fn made_text(alloc: Global, seed: u64, cells: u32) -> Result<String, Fail>
    requires { 0 < cells }
{
    let mut text = String::new(alloc);
    for j in 0..5 {
        text.push_str(&kind_text(alloc, j)?)?;
    }
    text.push_str(HEAD)?;
    let mut words = Lcg64Xsh32::new(seed, 55);
    for i in 0..cells {
        let a = words.next_word() % cells;
        let b = words.next_word() % cells;
        write!(text, "c{i} M{} n{a} n{b} n{i} z{} VDD VSS;\n", i % 5, i / 4)?;
    }
    text.push_str(TAIL)?;
    Ok(text)
}

/// The design that a seed makes of so many cells.
pub(crate) fn made_design(alloc: Global, seed: u64, cells: u32) -> Result<Design, Fail>
    requires { 0 < cells }
{
    let text = made_text(alloc, seed, cells)?;
    Ok(design_of(alloc, text.as_str())?)
}

/// The rows that a design begins with.
pub(crate) fn first_rows(alloc: Global, design: &Design, rows: u32) -> Result<Rows, AllocError>
    requires some { 0 < rows }
    requires few { rows ≤ 512 }
    ensures { IfOk result (λ made. ArePlaced design.now made) }
{
    start(alloc, design, rows, StartBy::Width)
}
