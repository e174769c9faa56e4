//! The word that each net of a netlist goes by.

ghost use Rattle.netlist_import.specs.Nets.{all_seen, is_terminal, rename_of, renamed, renamed_by, renames_behind, renames_of, seen, word_is};
ghost use Rattle.std.specs.List.{list_any};
ghost use Rattle.std.specs.Prelude.{◌≡◌, IfOk};

use blif_reader::{BlifFile, BlifWord};
use std::alloc::{AllocError, Global};

/// One word in place of another.
#[derive(Clone, Copy)]
pub(crate) struct Renaming<'a> {
    pub(crate) from: &'a [u8],
    pub(crate) to: &'a [u8],
}

/// Whether a word is one of these.
pub(crate) fn is_among_words(words: &[BlifWord], word: &[u8]) -> bool
    ensures { result ≡ list_any (word_is word.now) words.now }
{
    words.iter().any(|x| word == x.text.items())
}

/// Whether a word is a terminal of the model.
fn is_terminal(netlist: &BlifFile, word: &[u8]) -> bool
    ensures { result ≡ is_terminal netlist.now word.now }
{
    is_among_words(netlist.inputs.items(), word) || is_among_words(netlist.outputs.items(), word)
}

/// A word under one renaming.
fn renamed_by<'a>(renaming: Renaming<'a>, word: &'a [u8]) -> &'a [u8]
    ensures { result.now ≡ renamed_by (seen renaming.entry) word.entry.now }
{
    if word == renaming.from {
        renaming.to
    } else {
        word
    }
}

/// A word under renamings, one after the other. Takes no memory.
#[tactic(auto, unfolding(crate::specs::Nets::renamed))]
pub(crate) fn renamed<'a>(renamings: &[Renaming<'a>], word: &'a [u8]) -> &'a [u8]
    ensures { result.now ≡ renamed (all_seen renamings.now) word.entry.now }
{
    let Some((first, after)) = renamings.split_first() else {
        return word;
    };
    renamed(after, renamed_by(*first, word))
}

/// The renaming by which two joined nets go by one word, where each goes by one of these.
fn renaming_of<'a>(netlist: &BlifFile, first: &'a [u8], second: &'a [u8]) -> Renaming<'a>
    ensures { seen result ≡ rename_of netlist.now first.entry.now second.entry.now }
{
    if is_terminal(netlist, second) && !is_terminal(netlist, first) {
        Renaming {
            from: first,
            to: second,
        }
    } else {
        Renaming {
            from: second,
            to: first,
        }
    }
}

/// The renamings of a netlist. The one error is want of memory.
pub(crate) fn renamings_of(
    alloc: Global,
    netlist: &BlifFile,
) -> Result<Vec<Renaming<'_>>, AllocError>
    ensures { IfOk result (λ found. all_seen found.items ≡ renames_of netlist.now) }
{
    let mut found = Vec::new(alloc);
    for join in netlist.joins.items() {
        let first = renamed(found.as_slice(), join.first.text.items());
        let second = renamed(found.as_slice(), join.second.text.items());
        found.push(renaming_of(netlist, first, second))?;
    }
    Ok(found)
}
