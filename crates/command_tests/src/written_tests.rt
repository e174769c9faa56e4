//! Checksums of the layouts that `make` writes, as an earlier build of the program has written them.

use crate::support::{stock_style, words};
use commands::run;
use samples::RULES;
use shelf_io::{MemShelf, MemSink};
use std::alloc::{AllocError, Global};
use std::test::Fail;
use stock_styles::Stock;

/// Checksums are below this.
const SUMS: u64 = 1 << 61;

/// A layout: the words by which it is made, how many bytes it has, and their checksum.
type Written = (&'static str, usize, u64);

/// The layouts that are made by the style `best`.
const BY_BEST: [Written; 5] = [
    ("make|1|40|r|o", 85_431, 1_447_374_740_359_909_655),
    ("make|2|40|r|o", 82_510, 1_839_793_290_211_482_410),
    ("make|3|40|r|o", 72_926, 5_468_521_610_825_113),
    ("make|4|40|r|o", 85_834, 290_115_058_407_341_292),
    ("make|5|40|r|o", 82_952, 411_179_709_130_419_544),
];

/// The layouts that are made by the style `deft`.
const BY_DEFT: [Written; 5] = [
    ("make|1|40|r|o", 85_213, 1_933_346_187_888_015_172),
    ("make|2|40|r|o", 82_510, 1_839_793_290_211_482_410),
    ("make|3|40|r|o", 74_564, 828_008_312_291_532_550),
    ("make|4|40|r|o", 87_788, 1_616_560_852_699_529_192),
    ("make|5|40|r|o", 86_620, 2_276_631_863_650_150_220),
];

// The checksum of bytes.
fn checksum(bytes: &[u8]) -> u64 {
    let mut sum = 0u64;
    for byte in bytes {
        sum = sum.wrapping_mul(1_000_003).wrapping_add(*byte as u64 + 1) % SUMS;
    }
    sum
}

// How many bytes these words write into `o` by a style under the sample rules, and their checksum.
fn written(alloc: Global, text: &str, stock: Stock) -> Result<(usize, u64), AllocError> {
    let mut shelf = MemShelf::new(alloc)?;
    shelf.set("r", RULES.as_bytes())?;
    let mut out = MemSink::new(alloc)?;
    let words = words(alloc, text)?;
    let style = stock_style(alloc, stock)?;
    let _ended = run(
        alloc,
        words.as_slice(),
        &mut shelf,
        &mut out,
        &mut MemSink::new(alloc)?,
        &[style],
    );
    match shelf.get("o") {
        Some(bytes) => Ok((bytes.len(), checksum(bytes))),
        None => Ok((0, 0)),
    }
}

#[test]
fn layouts_by_best_are_as_before(rt: HostRuntime) -> Result<(), Fail> {
    for (text, length, sum) in BY_BEST {
        let found = written(rt.alloc(), text, Stock::Best)?;
        assert_eq!(rt; found, (length, sum), "{text}");
    }
    Ok(())
}

#[test]
fn layouts_by_deft_are_as_before(rt: HostRuntime) -> Result<(), Fail> {
    for (text, length, sum) in BY_DEFT {
        let found = written(rt.alloc(), text, Stock::Deft)?;
        assert_eq!(rt; found, (length, sum), "{text}");
    }
    Ok(())
}
