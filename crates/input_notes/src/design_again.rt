//! The design of a text that is read once more, to tell of it.

use indexmap::IndexSet;
use list_facts::number;
use std::alloc::{AllocError, Global};
use tech_rules::{Rules, read_rules};
use text_places::{Token, are_on_two_lines, next_token};
use yal_reader::{Call, Flow, Kind, Line, Module, Numbers, YalFile, numbers_of, read_yal};

/// The texts of rules and of a design, as far as they were read.
#[derive(Clone, Copy)]
pub struct TextsRead<'a> {
    pub rules: Option<&'a [u8]>,
    pub design: Option<&'a [u8]>,
}

/// A design's text, and what it says under rules.
#[derive(Drop)]
pub(crate) struct Design<'a> {
    pub(crate) text: &'a [u8],
    pub(crate) file: YalFile,
    pub(crate) rules: Rules,
}

/// The rules that were read, if they were.
pub fn rules_again(alloc: Global, read: TextsRead<'_>) -> Option<Rules> {
    read_rules(alloc, read.rules?).ok()
}

/// How the numbers of a design are written under the rules that were read, if they were.
pub fn numbers_again(alloc: Global, read: TextsRead<'_>) -> Option<Numbers> {
    let rules = rules_again(alloc, read)?;
    Some(numbers_of(rules.version, rules.decimals))
}

/// The design that was read, if it was.
pub(crate) fn design_again<'a>(alloc: Global, read: TextsRead<'a>) -> Option<Design<'a>> {
    let text = read.design?;
    let rules = rules_again(alloc, read)?;
    let numbers = numbers_of(rules.version, rules.decimals);
    let file = read_yal(alloc, text, numbers).ok()?;
    Some(Design { text, file, rules })
}

impl<'a> Design<'a> {
    /// The modules.
    pub(crate) fn modules(&self) -> &[Module] {
        self.file.modules.items()
    }

    /// The module of this number.
    pub(crate) fn module(&self, n: u32) -> Option<&Module> {
        self.modules().get(n as usize)
    }

    /// The first module of this name, and its number.
    pub(crate) fn module_named(&self, name: &[u8]) -> Option<(usize, &Module)> {
        for (n, module) in self.modules().iter().enumerate() {
            if module.name.items() == name {
                return Some((n, module));
            }
        }
        None
    }

    /// The call of this number in the first PARENT.
    pub(crate) fn call(&self, i: u32) -> Option<&Call> {
        for module in self.modules() {
            if module.kind == Kind::Parent {
                return module.calls.items().get(i as usize);
            }
        }
        None
    }
}

/// The names of a module's terminals, and of those of power among them.
#[derive(Drop)]
pub(crate) struct Terminals<'m> {
    pub(crate) all: IndexSet<&'m [u8]>,
    pub(crate) power: IndexSet<&'m [u8]>,
}

/// The terminals of these lines.
pub(crate) fn terminals_of<'m>(
    alloc: Global,
    lines: &'m [Line],
) -> Result<Terminals<'m>, AllocError> {
    let mut all = IndexSet::new(alloc);
    let mut power = IndexSet::new(alloc);
    for line in lines {
        number(&mut all, line.name.items())?;
        if matches!(line.flow, Flow::PWR | Flow::GND) {
            number(&mut power, line.name.items())?;
        }
    }
    Ok(Terminals { all, power })
}

/// The last word of a line of the text behind which a statement goes on in another line, in the first so many statements from a byte on.
pub(crate) fn broken_behind(text: &[u8], from: usize, statements: usize) -> Option<Token<'_>> {
    let mut last: Option<Token<'_>> = None;
    let mut from = from;
    let mut ended: usize = 0;
    for _ in 0..text.len() {
        let token = next_token(text, from)?;
        from = token.end();
        if token.is_end() {
            last = None;
            ended = ended.saturating_add(1);
            if ended >= statements {
                return None;
            }
            continue;
        }
        if let Some(word) = last {
            if are_on_two_lines(text, word, token) {
                return Some(word);
            }
        }
        last = Some(token);
    }
    None
}

/// The name of a type of modules.
pub(crate) fn kind_word(kind: Kind) -> &'static str {
    match kind {
        Kind::Standard => "STANDARD",
        Kind::Pad => "PAD",
        Kind::General => "GENERAL",
        Kind::Parent => "PARENT",
    }
}
