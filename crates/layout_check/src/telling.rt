//! Findings of one number and of two, each kind put behind those told before.

ghost use Rattle.layout_check.specs.Telling.{of_number, of_pair};
ghost use Rattle.std.specs.Prelude.{◌≡◌, ◌++◌, ◌∷◌, [], map, not, if◌then◌else◌, OnOk};

use crate::finding::Finding;
use std::alloc::AllocError;

/// A kind of findings that tell of one number each.
#[derive(Clone, Copy)]
pub(crate) enum OfNumber {
    Missing,
    Strange,
    Drawing,
    Narrow,
    BareCut,
}

/// A kind of findings that tell of two numbers each.
#[derive(Clone, Copy)]
pub(crate) enum OfPair {
    Doubled,
    Overlap,
    OutOfRow,
    Close,
    Opened,
    Short,
}

/// Puts a finding of this kind at the end for each number. The one error is want of memory.
pub(crate) fn put_numbers(
    findings: &mut Vec<Finding>,
    kind: OfNumber,
    numbers: &[u32],
) -> Result<(), AllocError>
    ensures { OnOk result (findings.new.items ≡ findings.old.items ++ map (λ n. of_number kind n) numbers.now) }
{
    for n in numbers {
        findings.push(number_finding(kind, *n))?;
    }
    Ok(())
}

/// Puts a finding of this kind at the end for each pair. The one error is want of memory.
pub(crate) fn put_pairs(
    findings: &mut Vec<Finding>,
    kind: OfPair,
    pairs: &[(u32, u32)],
) -> Result<(), AllocError>
    ensures { OnOk result (findings.new.items ≡ findings.old.items ++ map (λ p. of_pair kind p) pairs.now) }
{
    for pair in pairs {
        findings.push(pair_finding(kind, pair.0, pair.1))?;
    }
    Ok(())
}

fn number_finding(kind: OfNumber, n: u32) -> Finding
    ensures { result ≡ of_number kind n }
{
    match kind {
        OfNumber::Missing => Finding::Missing(n),
        OfNumber::Strange => Finding::Strange(n),
        OfNumber::Drawing => Finding::Drawing(n),
        OfNumber::Narrow => Finding::Narrow(n),
        OfNumber::BareCut => Finding::BareCut(n),
    }
}

fn pair_finding(kind: OfPair, first: u32, later: u32) -> Finding
    ensures { result ≡ of_pair kind (first, later) }
{
    match kind {
        OfPair::Doubled => Finding::Doubled(first, later),
        OfPair::Overlap => Finding::Overlap(first, later),
        OfPair::OutOfRow => Finding::OutOfRow(first, later),
        OfPair::Close => Finding::Close(first, later),
        OfPair::Opened => Finding::Opened(first, later),
        OfPair::Short => Finding::Short(first, later),
    }
}

/// Puts a number at the end, unless something is well with it. The one error is want of memory.
pub(crate) fn push_unless(
    numbers: &mut Vec<u32>,
    number: u32,
    is_well: bool,
) -> Result<(), AllocError>
    ensures { OnOk result (numbers.new.items ≡ (if not is_well then numbers.old.items ++ number ∷ [] else numbers.old.items)) }
{
    if !is_well {
        numbers.push(number)?;
    }
    Ok(())
}
