//! Notes on rules of which one of the twelve does not hold.

use std::alloc::{AllocError, Global};
use tech_rules::Key;
use text_places::{Told, place_of_key};
use toml::{Table, Value};

/// The values of a rules file.
#[derive(Drop)]
struct Values {
    table: Table,
}

impl Values {
    // The value of a key.
    fn value(&self, key: Key) -> Option<&Value> {
        match key.section() {
            Some(section) => self.table.get(section)?.as_table()?.get(key.word()),
            None => self.table.get(key.word()),
        }
    }

    // The number of a key.
    fn number(&self, key: Key) -> i64 {
        match self.value(key) {
            Some(value) => value.as_integer().unwrap_or(0),
            None => 0,
        }
    }

    // The text of a key.
    fn text(&self, key: Key) -> &str {
        match self.value(key) {
            Some(value) => value.as_str().unwrap_or(""),
            None => "",
        }
    }

    // The side of a pad.
    fn pad(&self) -> i64 {
        self.number(Key::CutSize)
            .saturating_add(self.number(Key::CutEnclose).saturating_mul(2))
    }
}

// How large a pad is.
fn pad_shown(alloc: Global, values: &Values) -> Result<String, AllocError> {
    let size = values.number(Key::CutSize);
    let enclose = values.number(Key::CutEnclose);
    format!(in alloc; "pad = {size} + 2*{enclose}")
}

// A wire that is wider than a pad.
fn wide(alloc: Global, values: &Values, key: Key) -> Result<(Key, String), AllocError> {
    let name = key.name();
    let width = values.number(key);
    let most = values.pad();
    let pad = pad_shown(alloc, values)?;
    let what = format!(in alloc;
        "{name} is {width}; the rule pad >= {name} wants {most} at most ({pad})"
    )?;
    Ok((key, what))
}

// A pitch that is too small for pads and the space between them.
fn narrow(
    alloc: Global,
    values: &Values,
    pitch: Key,
    space: Key,
) -> Result<(Key, String), AllocError> {
    let name = pitch.name();
    let other = space.name();
    let number = values.number(pitch);
    let least = values.pad().saturating_add(values.number(space));
    let pad = pad_shown(alloc, values)?;
    let what = format!(in alloc;
        "{name} is {number}; the rule {name} >= pad + {other} wants {least} at least ({pad})"
    )?;
    Ok((pitch, what))
}

// A pitch that is too small for cuts and the space between them.
fn narrow_for_cuts(
    alloc: Global,
    values: &Values,
    pitch: Key,
) -> Result<(Key, String), AllocError> {
    let name = pitch.name();
    let number = values.number(pitch);
    let size = values.number(Key::CutSize);
    let space = values.number(Key::CutSpace);
    let least = size.saturating_add(space);
    let what = format!(in alloc;
        "{name} is {number}; the rule {name} >= cut.size + cut.space wants {least} at least ({size} + {space})"
    )?;
    Ok((pitch, what))
}

// A number that is no multiple of another.
fn uneven(
    alloc: Global,
    values: &Values,
    key: Key,
    step: i64,
) -> Result<(Key, String), AllocError> {
    let name = key.name();
    let number = values.number(key);
    let below = if step > 0 {
        number.saturating_sub(number.checked_rem(step).unwrap_or(0))
    } else {
        number
    };
    let above = below.saturating_add(step);
    let what = format!(in alloc;
        "{name} is {number}; it has to be a multiple of {step}, as {below} and {above} are"
    )?;
    Ok((key, what))
}

// A pin that is too short.
fn short(alloc: Global, values: &Values) -> Result<(Key, String), AllocError> {
    let pin = values.number(Key::GridPin);
    let least = values.number(Key::VerticalWidth);
    let what = format!(in alloc;
        "grid.pin is {pin}; the rule grid.pin >= vertical.width wants {least} at least"
    )?;
    Ok((Key::GridPin, what))
}

// Two layers of one name.
fn same(alloc: Global, values: &Values) -> Result<(Key, String), AllocError> {
    let pairs = [
        (Key::HorizontalLayer, Key::VerticalLayer),
        (Key::HorizontalLayer, Key::CutLayer),
        (Key::HorizontalLayer, Key::OutlineLayer),
        (Key::VerticalLayer, Key::CutLayer),
        (Key::VerticalLayer, Key::OutlineLayer),
        (Key::CutLayer, Key::OutlineLayer),
    ];
    for (one, other) in pairs {
        let layer = values.text(one);
        if layer == values.text(other) {
            let first = one.name();
            let second = other.name();
            let what = format!(in alloc;
                "{second} is {layer}, and so is {first}; the four layers want different names"
            )?;
            return Ok((other, what));
        }
    }
    let what = format!(in alloc; "the four layers want different names")?;
    Ok((Key::OutlineLayer, what))
}

// What is wrong with values by the rule of this number, and at which key.
fn broken(alloc: Global, values: &Values, rule: u8) -> Result<(Key, String), AllocError> {
    match rule {
        1 => wide(alloc, values, Key::HorizontalWidth),
        2 => wide(alloc, values, Key::VerticalWidth),
        3 => narrow(alloc, values, Key::GridColumn, Key::HorizontalSpace),
        4 => narrow(alloc, values, Key::GridColumn, Key::VerticalSpace),
        5 => narrow(alloc, values, Key::GridTrack, Key::HorizontalSpace),
        6 => narrow(alloc, values, Key::GridTrack, Key::VerticalSpace),
        7 => narrow_for_cuts(alloc, values, Key::GridColumn),
        8 => narrow_for_cuts(alloc, values, Key::GridTrack),
        9 => uneven(alloc, values, Key::GridColumn, 2),
        10 => uneven(alloc, values, Key::GridCenti, 4),
        11 => short(alloc, values),
        _ => same(alloc, values),
    }
}

/// What is wrong with rules of which the one of this number does not hold.
pub(crate) fn told_of_tight(alloc: Global, text: &[u8], rule: u8) -> Result<Told, AllocError> {
    let letters = str::from_utf8(text).unwrap_or("");
    let Ok(table) = toml::table_from_str(alloc, letters) else {
        return Ok(Told::whole(format!(in alloc; "rule {rule} does not hold")?));
    };
    let values = Values { table };
    let (key, what) = broken(alloc, &values, rule)?;
    Ok(Told::in_line(place_of_key(text, key), what))
}
