//! The pin at a terminal of an instance, found by halving the list of pins.

ghost use Rattle.design_model.specs.PinOrder.{is_less, pin_pair, pins_before, IsAscending, IsPinAt};
ghost use Rattle.std.specs.List.{AllByRecursion};
ghost use Rattle.std.specs.Prelude.{◌≡◌, ◌≢◌, ◌≤◌, length, map, IfSome, None};

use crate::design::Pin;
use limits::MOST_PINS;

/// The number of the pin of this instance and terminal, if there is one among these pins, which stand in order of their
/// instances, then terminals. Takes no memory.
pub(crate) fn find_pin(pins: &[Pin], instance: u32, terminal: u32) -> Option<u32>
    requires few { length pins.now ≤ MOST_PINS }
    requires ordered { IsAscending (map pin_pair pins.now) }
    ensures found { IfSome result (λ n. IsPinAt pins.now n instance terminal) }
    ensures none { result ≡ None → AllByRecursion (λ pair. pair ≢ (instance, terminal)) (map pin_pair pins.now) }
{
    let first = pins_before(pins, instance, terminal);
    if first == pins.len() {
        return None;
    }
    let pin = pins[first];
    if pin.instance != instance {
        return None;
    }
    if pin.terminal != terminal {
        return None;
    }
    Some(first as u32)
}

// How many pins stand before this instance and terminal.
fn pins_before(pins: &[Pin], instance: u32, terminal: u32) -> usize
    requires { IsAscending (map pin_pair pins.now) }
    ensures is { result ≡ pins_before pins.now (instance, terminal) }
    ensures within { result ≤ length pins.now }
{
    let mut low = 0;
    let mut high = pins.len();
    while low < high {
        let middle = low + (high - low) / 2;
        if is_before(pins[middle], instance, terminal) {
            low = middle + 1;
        } else {
            high = middle;
        }
    }
    low
}

fn is_before(pin: Pin, instance: u32, terminal: u32) -> bool
    ensures { result ≡ is_less (pin_pair pin) (instance, terminal) }
{
    pin.instance < instance || pin.instance == instance && pin.terminal < terminal
}
