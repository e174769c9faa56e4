//! A text that is cut after each of its bytes.

use crate::shown::is_shown;
use std::alloc::{AllocError, Global};
use std::test::Fail;

/// Two cells of one inverter each, joined by a wire; the end command is the 361st byte.
const JOINED: &str =
    "(cellroute 1);\nDS 1 1 1;\n9 BUF;\nL XP;\nB 800 4000 400 2000;\nL NP;\nB 300 400 400 3800;\nDF;\n91 u1;\nC 1 T 0 800;\n91 u2;\nC 1 T 800 800;\nL NP;\nB 300 1000 400 5300;\nB 300 1000 1200 5300;\nL NM;\nB 1200 300 800 5600;\nB 400 400 400 5600;\nL NP;\nB 400 400 400 5600;\nL NC;\nB 200 200 400 5600;\nL NM;\nB 400 400 1200 5600;\nL NP;\nB 400 400 1200 5600;\nL NC;\nB 200 200 1200 5600;\nE\n";

/// What the whole text reads as.
const COMMANDS: &str =
    "();DS 1 1 1;9 BUF;L XP;B 800 4000 400 2000 false;L NP;B 300 400 400 3800 false;DF;91 u1;C 1 false 0 0 800;91 u2;C 1 false 0 800 800;L NP;B 300 1000 400 5300 false;B 300 1000 1200 5300 false;L NM;B 1200 300 800 5600 false;B 400 400 400 5600 false;L NP;B 400 400 400 5600 false;L NC;B 200 200 400 5600 false;L NM;B 400 400 1200 5600 false;L NP;B 400 400 1200 5600 false;L NC;B 200 200 1200 5600 false;E";

/// How the text reads that is cut after so many bytes: the comment is open up to its parenthesis, and then the end is missing.
fn cut_answer(alloc: Global, length: usize) -> Result<String, AllocError> {
    if length > 360 {
        return String::from_str(alloc, COMMANDS);
    }
    if length == 0 || length > 12 {
        return format!(in alloc; "NoEnd {length}");
    }
    String::from_str(alloc, "Unclosed 0")
}

/// Whether the text reads so when it is cut after so many bytes.
fn is_cut(alloc: Global, length: usize) -> Result<bool, AllocError> {
    let Some(text) = JOINED.as_bytes().get(..length) else {
        return Ok(false);
    };
    is_shown(alloc, text, cut_answer(alloc, length)?.as_bytes())
}

/// Whether it does after each number of bytes up to this one.
fn are_cut(alloc: Global, last: usize) -> Result<bool, AllocError> {
    for length in 0..=last {
        if !is_cut(alloc, length)? {
            return Ok(false);
        }
    }
    Ok(true)
}

#[test]
fn a_text_is_cut_after_each_byte(rt: HostRuntime) -> Result<(), Fail> {
    assert!(rt; JOINED.len() == 362 && are_cut(rt.alloc(), 362)?);
    Ok(())
}
