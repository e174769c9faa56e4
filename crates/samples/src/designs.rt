//! Designs of sample modules.

ghost use Rattle.samples.specs.Sampled.{IsSampled};
ghost use Rattle.std.specs.Prelude.{◌≡◌, ◌++◌, IfOk};
ghost use Rattle.std.specs.String.{string_bytes};

use crate::rules::sample_rules;
use design_model::Design;
use netlist_core::{DesignFault, to_design};
use std::alloc::{AllocError, Global};
use yal_reader::{YalFault, numbers_of, read_yal};

/// What stands before the calls of a PARENT.
pub const HEAD: &str =
    "MODULE top;\nTYPE PARENT;\nDIMENSIONS 0 0 8 0 8 40 0 40;\nIOLIST;\nENDIOLIST;\nNETWORK;\n";

/// What stands behind the calls of a PARENT.
pub const TAIL: &str = "ENDNETWORK;\nENDMODULE;\n";

/// Why a text was no design under the sample rules.
#[derive(Debug, Drop)]
pub enum SampleFault {
    /// It has 2^24 bytes or more.
    TooLong,
    /// It is no YAL.
    Yal(YalFault),
    /// It is YAL, and no design on the grid.
    Design(DesignFault),
    /// Memory ran out.
    Memory,
}

impl From<AllocError> for SampleFault {
    ghost use Rattle.samples.specs.declared.designs.SampleFault.TheVariants.{Memory};

    ghost from_gives = { λ _ fault. fault ≡ Memory };

    fn from(_: AllocError) -> Self {
        SampleFault::Memory
    }
}

/// The text of a design: the text of its modules, and a PARENT named `top` with these calls. The one error is want of memory.
pub fn design_text(alloc: Global, modules: &str, calls: &str) -> Result<String, AllocError>
    ensures { IfOk result (λ text. string_bytes text ≡ modules.now ++ HEAD.now ++ calls.now ++ TAIL.now) }
{
    let mut text = String::from_str(alloc, modules)?;
    text.push_str(HEAD)?;
    text.push_str(calls)?;
    text.push_str(TAIL)?;
    Ok(text)
}

/// The design that a text is under the sample rules, or why it is none.
pub fn design_of(alloc: Global, text: &str) -> Result<Design, SampleFault>
    ensures { IfOk result (IsSampled text.now) }
{
    if text.len() >= 1 << 24 {
        return Err(SampleFault::TooLong);
    }
    let rules = sample_rules(alloc)?;
    let file = match read_yal(
        alloc,
        text.as_bytes(),
        numbers_of(rules.version, rules.decimals),
    ) {
        Ok(file) => file,
        Err(fault) => return Err(SampleFault::Yal(fault)),
    };
    match to_design(alloc, &file, &rules) {
        Ok(design) => Ok(design),
        Err(fault) => Err(SampleFault::Design(fault)),
    }
}

/// The design of these modules and calls under the sample rules, or why there is none.
pub fn designed(alloc: Global, modules: &str, calls: &str) -> Result<Design, SampleFault>
    ensures { IfOk result (IsSampled (modules.now ++ HEAD.now ++ calls.now ++ TAIL.now)) }
{
    let text = design_text(alloc, modules, calls)?;
    design_of(alloc, text.as_str())
}
