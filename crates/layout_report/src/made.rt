//! Designs that are made from a number.

ghost use Rattle.layout_report.specs.MadeText.{call_text, calls_text, kind_text, kinds_text, last_digits, length_text, made_height, made_text, middle, outline_text, position_text, positions_text};
ghost use Rattle.std.specs.Fmt.{decimal};
ghost use Rattle.std.specs.Prelude.{◌≡◌, ◌+◌, ◌*◌, ◌^◌, ◌<◌, ◌≤◌, ◌++◌, codes, OnOk, IfOk};

use crate::words::Words;
use itoa::Buffer;
use limits::{MOST_DECIMALS, MOST_INSTANCES};
use std::alloc::{AllocError, Global};
use tech_rules::Rules;

// Puts bytes behind a text.
fn put(text: &mut Vec<u8>, piece: &[u8]) -> Result<(), AllocError>
    ensures { OnOk result (text.new.items ≡ text.old.items ++ piece.now) }
{
    text.extend_from_slice(piece)
}

// Puts a number.
fn put_number(text: &mut Vec<u8>, n: u64) -> Result<(), AllocError>
    ensures { OnOk result (text.new.items ≡ text.old.items ++ decimal n) }
{
    let mut digits = Buffer::new();
    put(text, digits.format(n).as_bytes())
}

// Puts a blank and a number.
fn put_next(text: &mut Vec<u8>, n: u64) -> Result<(), AllocError>
    ensures { OnOk result (text.new.items ≡ text.old.items ++ codes " " ++ decimal n) }
{
    put(text, b" ")?;
    put_number(text, n)
}

// Puts the last so many digits of a number.
#[tactic(auto, unfolding(crate::specs::MadeText::last_digits))]
fn put_last_digits(text: &mut Vec<u8>, digits: u32, n: u64) -> Result<(), AllocError>
    ensures { OnOk result (text.new.items ≡ text.old.items ++ last_digits digits n) }
{
    if digits == 0 {
        return Ok(());
    }
    put_last_digits(text, digits - 1, n / 10)?;
    put(text, &[b'0' + (n % 10) as u8])
}

// So many times 10, one by the other.
fn power_of_ten(decimals: u32) -> u64
    requires { decimals ≤ MOST_DECIMALS }
    ensures { result ≡ 10 ^ decimals }
{
    10u64.pow(decimals)
}

// Puts a length in units as a number with so many decimals.
#[tactic(auto, unfolding(crate::specs::MadeText::length_text))]
fn put_length(text: &mut Vec<u8>, decimals: u32, units: u64) -> Result<(), AllocError>
    requires { decimals ≤ MOST_DECIMALS }
    ensures { OnOk result (text.new.items ≡ text.old.items ++ length_text decimals units) }
{
    if decimals == 0 || units == 0 {
        return put_number(text, units);
    }
    put_number(text, units / power_of_ten(decimals))?;
    put(text, b".")?;
    put_last_digits(text, decimals, units)
}

// Puts a blank and a length in units.
fn put_next_length(text: &mut Vec<u8>, rules: &Rules, units: u64) -> Result<(), AllocError>
    ensures { OnOk result (text.new.items ≡ text.old.items ++ codes " " ++ length_text rules.now.decimals units) }
{
    put(text, b" ")?;
    put_length(text, rules.decimals, units)
}

// The middle of a column in units.
#[tactic(auto, unfolding(crate::specs::MadeText::middle))]
fn middle(rules: &Rules, column: u64) -> u64
    requires { column ≤ 10 }
    ensures is { result ≡ middle rules.now column }
{
    column * rules.grid.column as u64 + rules.grid.column as u64 / 2
}

// The height of the cells in units.
#[tactic(auto, unfolding(crate::specs::MadeText::made_height))]
fn height(rules: &Rules) -> u64
    ensures is { result ≡ made_height rules.now }
{
    2 * rules.grid.pin as u64 + rules.vertical.space as u64
}

// The width of a pin in units.
fn pin_width(rules: &Rules) -> u64
    ensures is { result ≡ rules.now.vertical.width }
{
    rules.vertical.width as u64
}

// Puts a blank and the word of the pins' layer.
fn put_layer(text: &mut Vec<u8>, rules: &Rules) -> Result<(), AllocError>
    ensures { OnOk result (text.new.items ≡ text.old.items ++ (codes " " ++ rules.now.yal)) }
{
    put(text, b" ")?;
    put(text, rules.yal.items())
}

// Puts the line of a position of a terminal.
#[tactic(auto, unfolding(crate::specs::MadeText::position_text))]
fn put_position(
    text: &mut Vec<u8>,
    rules: &Rules,
    name_and_flow: &[u8],
    column: u64,
    height: u64,
) -> Result<(), AllocError>
    requires { column ≤ 10 }
    ensures { OnOk result (text.new.items ≡ text.old.items ++ position_text rules.now name_and_flow.now column height) }
{
    put(text, name_and_flow)?;
    put_next_length(text, rules, middle(rules, column))?;
    put_next_length(text, rules, height)?;
    put_next(text, pin_width(rules))?;
    put_layer(text, rules)?;
    put(text, b";\n")
}

// The width of so many columns in units.
fn width(rules: &Rules, columns: u64) -> u64
    requires { columns ≤ 10 }
    ensures is { result ≡ columns * rules.now.grid.column }
{
    columns * rules.grid.column as u64
}

// Puts the outline of cells of so many columns.
#[tactic(auto, unfolding(crate::specs::MadeText::outline_text))]
fn put_outline(text: &mut Vec<u8>, rules: &Rules, columns: u64) -> Result<(), AllocError>
    requires { columns ≤ 10 }
    ensures { OnOk result (text.new.items ≡ text.old.items ++ outline_text rules.now columns) }
{
    put(text, b"DIMENSIONS 0 0")?;
    put_next_length(text, rules, width(rules, columns))?;
    put(text, b" 0")?;
    put_next_length(text, rules, width(rules, columns))?;
    put_next_length(text, rules, height(rules))?;
    put(text, b" 0")?;
    put_next_length(text, rules, height(rules))?;
    put(text, b";\n")
}

// Puts the lines of the positions of kind j.
#[tactic(auto, unfolding(crate::specs::MadeText::positions_text))]
fn put_positions(text: &mut Vec<u8>, rules: &Rules, j: u64) -> Result<(), AllocError>
    requires { j ≤ 4 }
    ensures { OnOk result (text.new.items ≡ text.old.items ++ positions_text rules.now j) }
{
    put_position(text, rules, b"a I", 0, 0)?;
    put_position(text, rules, b"b I", j + 1, 0)?;
    put_position(text, rules, b"y O", 0, height(rules))?;
    put_position(text, rules, b"z B", 1, height(rules))?;
    if j == 4 {
        put_position(text, rules, b"z B", 2, 0)?;
    }
    Ok(())
}

// Puts kind j.
#[tactic(auto, unfolding(crate::specs::MadeText::kind_text))]
fn put_kind(text: &mut Vec<u8>, rules: &Rules, j: u64) -> Result<(), AllocError>
    requires { j ≤ 4 }
    ensures { OnOk result (text.new.items ≡ text.old.items ++ kind_text rules.now j) }
{
    put(text, b"MODULE M")?;
    put_number(text, j)?;
    put(text, b";\nTYPE STANDARD;\n")?;
    put_outline(text, rules, j + 2)?;
    put(text, b"IOLIST;\n")?;
    put_positions(text, rules, j)?;
    put(text, b"vdd PWR;\nvss GND;\nENDIOLIST;\nENDMODULE;\n")
}

// Puts the five kinds.
#[tactic(auto, unfolding(crate::specs::MadeText::kinds_text))]
fn put_kinds(text: &mut Vec<u8>, rules: &Rules) -> Result<(), AllocError>
    ensures { OnOk result (text.new.items ≡ text.old.items ++ kinds_text rules.now) }
{
    put_kind(text, rules, 0)?;
    put_kind(text, rules, 1)?;
    put_kind(text, rules, 2)?;
    put_kind(text, rules, 3)?;
    put_kind(text, rules, 4)
}

// Puts a letter and a number.
fn put_name(text: &mut Vec<u8>, letter: &[u8], n: u64) -> Result<(), AllocError>
    ensures { OnOk result (text.new.items ≡ text.old.items ++ (letter.now ++ decimal n)) }
{
    put(text, letter)?;
    put_number(text, n)
}

// Puts a blank, a letter and a number.
fn put_next_name(text: &mut Vec<u8>, letter: &[u8], n: u64) -> Result<(), AllocError>
    ensures { OnOk result (text.new.items ≡ text.old.items ++ (codes " " ++ (letter.now ++ decimal n))) }
{
    put(text, b" ")?;
    put_name(text, letter, n)
}

// Puts instance i, whose first two nets are these.
#[tactic(auto, unfolding(crate::specs::MadeText::call_text))]
fn put_call(text: &mut Vec<u8>, i: u32, first: u32, second: u32) -> Result<(), AllocError>
    ensures { OnOk result (text.new.items ≡ text.old.items ++ call_text i first second) }
{
    put_name(text, b"c", i as u64)?;
    put_next_name(text, b"M", (i % 5) as u64)?;
    put_next_name(text, b"n", first as u64)?;
    put_next_name(text, b"n", second as u64)?;
    put_next_name(text, b"n", i as u64)?;
    put_next_name(text, b"z", (i / 4) as u64)?;
    put(text, b" VDD VSS;\n")
}

// Puts n instances, whose nets are drawn from a seed.
#[tactic(auto, unfolding(crate::specs::MadeText::calls_text))]
fn put_calls(text: &mut Vec<u8>, seed: u64, n: u32) -> Result<(), AllocError>
    requires { n ≤ MOST_INSTANCES }
    ensures { OnOk result (text.new.items ≡ text.old.items ++ calls_text seed n n) }
{
    let mut words = Words::new(seed);
    for i in 0..n {
        let first = words.next() % n;
        let second = words.next() % n;
        put_call(text, i, first, second)?;
    }
    Ok(())
}

/// A design of n instances, 1 to 20,000, that is made from a seed, as a text of YAL whose cells are on the grid of the rules and of their least
/// height, and whose lengths have the decimals of the rules: five kinds of 2 to 6 columns in turn; the first two pins of an instance are on nets that are drawn from the random words of the
/// seed (PCG's 32-bit generator, stream 55), the third on a net of its own number, and four instances in a row share the net of the last. The one
/// error is want of memory.
#[tactic(auto, unfolding(crate::specs::MadeText::made_text, crate::specs::MadeText::network_text, crate::specs::MadeText::last_text))]
pub fn make_design(alloc: Global, rules: &Rules, seed: u64, n: u32) -> Result<Vec<u8>, AllocError>
    requires some { 1 ≤ n }
    requires few { n ≤ MOST_INSTANCES }
    ensures { IfOk result (λ text. text.items ≡ made_text rules.now seed n) }
{
    let mut text = Vec::new(alloc);
    put(&mut text, b"/* made design */\n")?;
    put_kinds(&mut text, rules)?;
    put(
        &mut text,
        b"MODULE made;\nTYPE PARENT;\nDIMENSIONS 0 0 1 0 1 1 0 1;\nPROFILE 0 0;\nIOLIST;\nENDIOLIST;\nNETWORK;\n",
    )?;
    put_calls(&mut text, seed, n)?;
    put(
        &mut text,
        b"ENDNETWORK;\nPLACEMENT;\nENDPLACEMENT;\nENDMODULE;\n",
    )?;
    Ok(text)
}
