//! The lines of commands of CIF.

ghost use Rattle.cif_text.specs.Printing.{HasLine};
ghost use Rattle.std.specs.Prelude.{◌≤◌};

use cif_text::{CifCommand, print_command};
use geom_core::LayerName;

fn boxed(length: i64, width: i64, cx: i64, cy: i64, upright: bool) -> CifCommand
    ensures { HasLine result }
{
    CifCommand::Box {
        length,
        width,
        cx,
        cy,
        upright,
    }
}

fn call(n: u64, flip: bool, quarters: u8, dx: i64, dy: i64) -> CifCommand
    requires { quarters ≤ 3 }
    ensures { HasLine result }
{
    CifCommand::Call {
        n,
        flip,
        quarters,
        dx,
        dy,
    }
}

fn is_printed(command: &CifCommand, wanted: &[u8]) -> bool
    requires { HasLine command.now }
{
    let mut line = [0; 192];
    let start = print_command(command, &mut line, 192);
    &line[start..] == wanted
}

fn is_layer(name: &[u8], wanted: &[u8]) -> bool {
    match LayerName::new(name) {
        Some(layer) => is_printed(&CifCommand::Layer(layer), wanted),
        None => false,
    }
}

// Whether the lines of the text of one inverter are printed, all but those of the two names.
fn is_inverter_printed() -> bool {
    is_printed(&CifCommand::Comment, b"(cellroute 1);\n")
        && is_printed(&CifCommand::Start { n: 1, a: 1, b: 1 }, b"DS 1 1 1;\n")
        && is_layer(b"XP", b"L XP;\n")
        && is_printed(
            &boxed(800, 4000, 400, 2000, false),
            b"B 800 4000 400 2000;\n",
        )
        && is_layer(b"NP", b"L NP;\n")
        && is_printed(&boxed(300, 400, 400, 200, false), b"B 300 400 400 200;\n")
        && is_printed(&CifCommand::Finish, b"DF;\n")
        && is_printed(&call(1, false, 0, 0, 800), b"C 1 T 0 800;\n")
        && is_printed(&CifCommand::End, b"E\n")
}

// Whether signs, directions and turns are printed, and the longest line: a call with the least offsets that a number of the type can be.
fn are_turns_printed() -> bool {
    let longest =
        b"C 18446744073709551615 M X R -1 0 T -9223372036854775808 -9223372036854775808;\n";
    is_printed(&boxed(2, 4, -5, 2, true), b"B 2 4 -5 2 0 1;\n")
        && is_printed(&call(7, true, 1, -12, 0), b"C 7 M X R 0 1 T -12 0;\n")
        && is_printed(&call(7, false, 2, 0, -1), b"C 7 R -1 0 T 0 -1;\n")
        && is_printed(&call(7, true, 3, 1, 1), b"C 7 M X R 0 -1 T 1 1;\n")
        && is_printed(&call(u64::MAX, true, 2, i64::MIN, i64::MIN), longest)
}

#[test]
fn prints_each_command(rt: HostRuntime) {
    assert!(rt; is_inverter_printed());
    assert!(rt; are_turns_printed());
}
