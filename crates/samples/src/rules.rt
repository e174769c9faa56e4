//! The sample rules: columns and tracks of 8 units, wires of 3 with spaces of 3, cuts of 2 in pads of 4, and a unit of 100 centimicrons.
ghost use Rattle.geom_core.specs.LayerText.{is_layer_text};
ghost use Rattle.samples.specs.Sample.{sample};
ghost use Rattle.std.specs.Prelude.{◌≡◌, true, IfOk};

use geom_core::{LayerName, Name};
use std::alloc::{AllocError, Global};
use tech_rules::{Annealing, Cut, Grid, Outline, Rules, StartBy, Wires};

/// The text of the sample rules, whose values are those of `sample_rules`.
pub const RULES: &str =
    "version = 1\nyal = \"POLY\"\n[grid]\ncolumn = 8\ntrack = 8\ncenti = 100\npin = 4\n[horizontal]\nlayer = \"NM\"\nwidth = 3\nspace = 3\n[vertical]\nlayer = \"NP\"\nwidth = 3\nspace = 3\n[cut]\nlayer = \"NC\"\nsize = 2\nenclose = 1\nspace = 3\n[outline]\nlayer = \"XP\"\n[anneal]\ntemperature = 1000\nstages = 0\nmoves = 4\nrow_cost = 4\nlength_cost = 1\n";

/// The sample rules. The one error is want of memory.
pub fn sample_rules(alloc: Global) -> Result<Rules, AllocError>
    ensures { IfOk result (λ rules. rules ≡ sample) }
{
    Ok(Rules {
        version: 1,
        yal: Name::new(b"POLY".to_vec(alloc)?),
        decimals: 0,
        grid: Grid {
            column: 8,
            track: 8,
            centi: 100,
            pin: 4,
        },
        horizontal: Wires {
            layer: layer(b"NM"),
            width: 3,
            space: 3,
        },
        vertical: Wires {
            layer: layer(b"NP"),
            width: 3,
            space: 3,
        },
        cut: Cut {
            layer: layer(b"NC"),
            size: 2,
            enclose: 1,
            space: 3,
        },
        outline: Outline {
            layer: layer(b"XP"),
        },
        annealing: Annealing {
            temperature: 1000,
            stages: 0,
            moves: 4,
            row_cost: 4,
            length_cost: 1,
            start: StartBy::Width,
        },
    })
}

// The layer of a name that is known to be one.
fn layer(text: &[u8]) -> LayerName
    requires { is_layer_text text.now ≡ true }
    ensures { result ≡ text.now }
{
    match LayerName::new(text) {
        Some(layer) => layer,
        None => unreachable!(),
    }
}
