//! Rules files, and the sample rules.

use samples::{RULES, sample_rules};
use std::alloc::{AllocError, Global};
use std::test::Fail;
use tech_rules::{Key, Rules, read_rules};

/// Cases with a stroke behind each: the fault that comes of it, a piece of the sample text, and what stands in its place.
const CASES: &str = "\
Missing(Version): version = 1\n => |\
Range(Version): version = 1 => version = 0|\
Range(Version): version = 1 => version = 3|\
Missing(Decimals): version = 1 => version = 2|\
Missing(Decimals): version = 1\nyal = \"POLY\"\n[grid]\ncolumn = 8\n => version = 2\nyal = \"POLY\"\n[grid]\n|\
Missing(Decimals): version = 1\nyal = \"POLY\"\n[grid]\n => version = 2\nyal = \"POLY\"\n[grid]\ndecimals = 2\n|\
Range(Yal): version = 1\nyal = \"POLY\" => version = 2\nyal = 3|\
good: version = 1 => version = 2\ndecimals = 0|\
good: version = 1 => version = 2\ndecimals = 4|\
Range(Decimals): version = 1 => version = 2\ndecimals = 5|\
Range(Decimals): version = 1 => version = 2\ndecimals = -1|\
Range(Decimals): version = 1 => version = 2\ndecimals = \"2\"|\
good: version = 1 => version = 1\ndecimals = 9|\
good: version = 1 => version = 1\ndecimals = \"x\"|\
Range(Version): version = 1 => version = \"1\"|\
Toml: version = 1\n => [grid]\nversion = 1\n|\
Range(Yal): \"POLY\" => \"\"|\
good: \"POLY\" => \"a_bcdefghijklmnopqrstuvwxyz01234\"|\
Range(Yal): \"POLY\" => \"a_bcdefghijklmnopqrstuvwxyz012345\"|\
Range(Yal): \"POLY\" => \"PO-LY\"|\
Range(Yal): \"POLY\" => 3|\
Range(Yal): \"POLY\"\n[grid]\ncolumn = 8\n => \"\"\n[grid]\n|\
Missing(GridColumn): column = 8\n => |\
Range(GridColumn): column = 8 => column = 8.0|\
Range(GridColumn): column = 8 => column = \"8\"|\
Range(GridColumn): column = 8 => column = true|\
Range(GridColumn): column = 8 => column = -8|\
Range(GridColumn): column = 8 => column = 1001|\
Range(GridColumn): column = 8 => column = 4294967304|\
Toml: column = 8 => column = 9223372036854775808|\
good: column = 8 => column = 0x8|\
good: column = 8 => column = 1_000|\
good: column = 8 => \"column\" = 8|\
Missing(GridColumn): column = 8 => \"grid.column\" = 8|\
good: column = 8\ntrack = 8 => track = 8\ncolumn = 8|\
Missing(GridColumn): [grid] => grid = 3\n[paper]|\
Missing(GridColumn): [grid] => [[grid]]|\
Toml: track = 8 => track = 8\ntrack = 8|\
Range(GridTrack): track = 8 => track = 1|\
Range(GridCenti): centi = 100 => centi = 3|\
good: pin = 4 => pin = 4\nink = \"red\"\n[paper]\nwidth = 0|\
Range(HorizontalLayer): \"NM\" => \"nm\"|\
Range(HorizontalLayer): \"NM\" => \"ABCDE\"|\
Missing(OutlineLayer): [outline]\nlayer = \"XP\"\n => |\
Range(CutEnclose): enclose = 1 => enclose = 1001|\
good: temperature = 1000 => temperature = 1000000000|\
Range(AnnealTemperature): temperature = 1000 => temperature = 1000000001|\
Missing(AnnealLengthCost): length_cost = 1\n => |\
good: length_cost = 1 => length_cost = 1\nstart = \"count\"|\
Range(AnnealStart): length_cost = 1 => length_cost = 1\nstart = \"area\"|\
Range(AnnealStart): length_cost = 1 => length_cost = 1\nstart = 1|\
Range(AnnealLengthCost): length_cost = 1 => length_cost = 1001\nstart = \"area\"|\
Tight(1): enclose = 1 => enclose = 0|\
Tight(2): \"NP\"\nwidth = 3 => \"NP\"\nwidth = 5|\
Tight(3): column = 8 => column = 6|\
Tight(4): \"NP\"\nwidth = 3\nspace = 3 => \"NP\"\nwidth = 3\nspace = 5|\
Tight(5): track = 8 => track = 6|\
Tight(9): column = 8 => column = 9|\
Tight(7): enclose = 1\nspace = 3 => enclose = 1\nspace = 7|\
good: column = 8\ntrack = 8 => column = 1000\ntrack = 7|\
Tight(10): centi = 100 => centi = 6|\
Tight(11): pin = 4 => pin = 2|\
Tight(12): \"XP\" => \"NM\"|\
Toml: version = 1 => version = ";

/// The fault of a text, or `good` where it is a rules file.
fn fault(alloc: Global, text: &[u8]) -> Result<String, AllocError> {
    match read_rules(alloc, text) {
        Ok(_) => String::from_str(alloc, "good"),
        Err(fault) => format!(in alloc; "{fault:?}"),
    }
}

/// Whether a text has this fault.
fn is_fault(alloc: Global, text: &[u8], want: &str) -> Result<bool, AllocError> {
    Ok(fault(alloc, text)?.as_str() == want)
}

/// Whether the sample text with a piece replaced has the fault of a case.
fn is_case(alloc: Global, case: &str) -> Result<bool, AllocError> {
    let Some((want, change)) = case.split_once(": ") else {
        return Ok(false);
    };
    let Some((old, new)) = change.split_once(" => ") else {
        return Ok(false);
    };
    let Some((before, after)) = RULES.split_once(old) else {
        return Ok(false);
    };
    let text = format!(in alloc; "{before}{new}{after}")?;
    is_fault(alloc, text.as_bytes(), want)
}

#[test]
fn each_fault_comes_where_it_should(rt: HostRuntime) -> Result<(), Fail> {
    for case in CASES.split('|') {
        assert!(rt; is_case(rt.alloc(), case)?, "{case}");
    }
    assert!(rt; is_fault(rt.alloc(), b"", "Missing(Version)")?);
    assert!(rt; is_fault(rt.alloc(), b"version = 1 # \xff", "Toml")?);
    Ok(())
}

/// All fields of the sample rules.
fn shown_sample(alloc: Global) -> Result<String, AllocError> {
    let rules = sample_rules(alloc)?;
    format!(in alloc; "{rules:?}")
}

/// All fields of the rules of the sample text.
fn shown_text(alloc: Global) -> Result<String, Fail> {
    let rules = read_rules(alloc, RULES.as_bytes())?;
    Ok(format!(in alloc; "{rules:?}")?)
}

/// Whether rules have the pad, the word for the layer and the outline's layer of the sample.
fn are_sample(rules: &Rules) -> bool {
    rules.pad() == 4
        && rules.yal.items() == b"POLY".as_slice()
        && rules.outline.layer.text() == b"XP".as_slice()
}

#[test]
fn the_sample_text_reads_as_the_sample(rt: HostRuntime) -> Result<(), Fail> {
    assert!(rt; shown_text(rt.alloc())? == shown_sample(rt.alloc())?);
    assert!(rt; are_sample(&sample_rules(rt.alloc())?));
    Ok(())
}

/// The decimals of the sample rules with this in place of their first line.
fn decimals_of(alloc: Global, front: &str) -> Result<u32, Fail> {
    let (_, rest) = RULES.split_once("version = 1\n").unwrap_or((RULES, ""));
    let text = format!(in alloc; "{front}{rest}")?;
    Ok(read_rules(alloc, text.as_bytes())?.decimals)
}

#[test]
fn decimals_are_those_of_version_two(rt: HostRuntime) -> Result<(), Fail> {
    assert_eq!(rt; decimals_of(rt.alloc(), "version = 1\n")?, 0);
    assert_eq!(rt; decimals_of(rt.alloc(), "version = 1\ndecimals = 3\n")?, 0);
    assert_eq!(rt; decimals_of(rt.alloc(), "version = 2\ndecimals = 0\n")?, 0);
    assert_eq!(rt; decimals_of(rt.alloc(), "version = 2\ndecimals = 3\n")?, 3);
    Ok(())
}

#[test]
fn a_key_has_its_text(rt: HostRuntime) {
    assert!(rt; Key::Version.name() == "version");
    assert!(rt; Key::Decimals.name() == "decimals");
    assert!(rt; Key::AnnealRowCost.name() == "anneal.row_cost");
}
