//! The signal words of calls, each with the instance and the terminal of its pin.

ghost use Rattle.netlist_core.specs.Signals.{all_signals, call_signals};
ghost use Rattle.std.specs.Prelude.{◌≡◌, ◌++◌, IfOk, OnOk};

use crate::calls::Calls;
use crate::library::Library;
use std::alloc::{AllocError, Global};
use std::marker::Model;
use yal_reader::Call;

/// A signal word at a pin, which contracts see as a `PinWord`.
#[derive(Drop)]
pub(crate) struct Signal<'a> {
    pub(crate) instance: u32,
    pub(crate) terminal: u32,
    pub(crate) word: &'a [u8],
}

impl<'a> Model for Signal<'a> {
    ghost use Rattle.netlist_core.specs.Signals.{PinWord};

    ghost Value = { PinWord };

    ghost view = { λ s. record { instance = s.instance; terminal = s.terminal; word = s.word.now } };
}

// Puts the words at the pins of an instance with this call at the end of the signals. The one error is want of memory.
fn add_signals<'a>(
    signals: &mut Vec<Signal<'a>>,
    library: &Library,
    instance: u32,
    call: &'a Call,
) -> Result<(), AllocError>
    ensures { OnOk result (signals.new.items ≡ signals.old.items ++ call_signals library.now instance call.entry.now) }
{
    let mut terminal = 0;
    let mut terminals = library.terminals(call.module.items());
    let mut words = call.signals.items();
    while let (Some((first, terminals_after)), Some((word, words_after))) = (
        terminals.split_first(),
        words.split_first(),
    ) {
        if !first.power {
            signals.push(Signal {
                instance,
                terminal,
                word: word.items(),
            })?;
        }
        terminal += 1;
        terminals = terminals_after;
        words = words_after;
    }
    Ok(())
}

/// The words at the pins of these calls, by instance, then by terminal. The one error is want of memory.
#[tactic(auto, unfolding(crate::specs::Signals::all_signals))]
pub(crate) fn signals_of<'a>(
    alloc: Global,
    library: &Library,
    calls: &Calls<'a>,
) -> Result<Vec<Signal<'a>>, AllocError>
    ensures { IfOk result (λ signals. signals.items ≡ all_signals library.now calls.now) }
{
    let calls = calls.items();
    let mut signals = Vec::new(alloc);
    for (i, call) in calls.iter().enumerate() {
        add_signals(&mut signals, library, i as u32, call)?;
    }
    Ok(signals)
}
