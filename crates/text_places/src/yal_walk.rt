//! Where in a YAL text a word stands: in which module, section and statement.

use crate::yal_tokens::{Token, next_token};

/// The part of a module that a statement stands in.
#[derive(Clone, Copy, PartialEq, Eq)]
pub enum Part {
    /// Outside of sections that have statements of their own.
    Bare,
    IoList,
    Network,
    Placement,
    CriticalNets,
}

impl Part {
    /// The keyword that ends the part.
    pub fn stop(self) -> &'static str {
        match self {
            Part::Bare => "ENDMODULE",
            Part::IoList => "ENDIOLIST",
            Part::Network => "ENDNETWORK",
            Part::Placement => "ENDPLACEMENT",
            Part::CriticalNets => "ENDCRITICALNETS",
        }
    }

    /// The keyword that begins the part.
    pub fn keyword(self) -> &'static str {
        match self {
            Part::Bare => "MODULE",
            Part::IoList => "IOLIST",
            Part::Network => "NETWORK",
            Part::Placement => "PLACEMENT",
            Part::CriticalNets => "CRITICALNETS",
        }
    }

    // The part behind a statement that begins with this word.
    fn behind(self, first: Token<'_>) -> Part {
        if self != Part::Bare {
            return if first.is(self.stop()) {
                Part::Bare
            } else {
                self
            };
        }
        if first.is("IOLIST") {
            return Part::IoList;
        }
        if first.is("NETWORK") {
            return Part::Network;
        }
        if first.is("PLACEMENT") {
            return Part::Placement;
        }
        if first.is("CRITICALNETS") {
            return Part::CriticalNets;
        }
        Part::Bare
    }
}

/// What is known behind some words of a text: the last of them, the first word of the statement and how many it has, the module with its type, how many
/// modules and PARENTs have begun, and the part of the module with how many lines or calls have begun there.
#[derive(Clone, Copy)]
pub struct Walk<'a> {
    pub last: Option<Token<'a>>,
    pub first: Option<Token<'a>>,
    pub words: usize,
    pub module: Option<Token<'a>>,
    pub kind: Option<Token<'a>>,
    pub modules: usize,
    pub parents: usize,
    pub part: Part,
    pub statements: usize,
}

impl<'a> Walk<'a> {
    // Before all words.
    fn new() -> Walk<'a> {
        Walk {
            last: None,
            first: None,
            words: 0,
            module: None,
            kind: None,
            modules: 0,
            parents: 0,
            part: Part::Bare,
            statements: 0,
        }
    }

    /// Whether the statement begins with this keyword.
    pub fn begins(&self, keyword: &str) -> bool {
        match self.first {
            Some(first) => first.is(keyword),
            None => false,
        }
    }

    /// Whether the module is of this type.
    pub fn is_of(&self, kind: &str) -> bool {
        match self.kind {
            Some(word) => word.is(kind),
            None => false,
        }
    }

    /// Whether these words are the first so many of a statement outside of lists which begins so.
    pub fn is_at(&self, keyword: &str, words: usize) -> bool {
        self.part == Part::Bare && self.words == words && self.begins(keyword)
    }

    // Behind one more word or semicolon.
    fn behind(self, token: Token<'a>) -> Walk<'a> {
        if token.is_end() {
            return self.behind_end(token);
        }
        self.behind_word(token)
    }

    // Behind the semicolon of a statement.
    fn behind_end(self, token: Token<'a>) -> Walk<'a> {
        let Some(first) = self.first else {
            return Walk {
                last: Some(token),
                ..self
            };
        };
        let part = self.part.behind(first);
        let closed = self.is_at("ENDMODULE", self.words);
        Walk {
            last: Some(token),
            first: None,
            words: 0,
            module: if closed { None } else { self.module },
            kind: if closed { None } else { self.kind },
            modules: self.modules,
            parents: self.parents,
            part,
            statements: if part == self.part {
                self.statements
            } else {
                0
            },
        }
    }

    // Behind a word.
    fn behind_word(self, token: Token<'a>) -> Walk<'a> {
        let more = Walk {
            last: Some(token),
            words: self.words.saturating_add(1),
            ..self
        };
        if more.words == 1 {
            return more.begun(token);
        }
        if more.is_at("MODULE", 2) {
            return Walk {
                module: Some(token),
                kind: None,
                modules: more.modules.saturating_add(1),
                ..more
            };
        }
        if more.is_at("TYPE", 2) {
            let parents = usize::from(token.is("PARENT"));
            return Walk {
                kind: Some(token),
                parents: more.parents.saturating_add(parents),
                ..more
            };
        }
        more
    }

    // Behind the first word of a statement.
    fn begun(self, token: Token<'a>) -> Walk<'a> {
        let counts = self.part != Part::Bare && !token.is(self.part.stop());
        Walk {
            first: Some(token),
            statements: self.statements.saturating_add(usize::from(counts)),
            ..self
        }
    }
}

/// What is sought in a text; numbers count from 0, and words of a statement from 1.
#[derive(Clone, Copy)]
pub enum Sought<'t> {
    /// The first word or semicolon at this byte or behind it.
    Byte(u64),
    /// The name of the module of this number.
    Module(usize),
    /// The name of the first module of this name.
    Named(&'t [u8]),
    /// The type of the PARENT of this number.
    Parent(usize),
    /// The first word of the section that begins so, in the module of this number.
    Section(usize, &'t [u8]),
    /// A word of a line, by the numbers of the module, the line and the word.
    Line(usize, usize, usize),
    /// A word of a call of a PARENT, by the numbers of the call and the word.
    Call(usize, usize),
    /// The name of the first call of this name in a PARENT.
    Calling(&'t [u8]),
    /// The first word that would end its part, but is not the first of a statement.
    Swallowed,
}

impl<'t> Sought<'t> {
    // Whether this is it, behind which the walk is so.
    fn is_met(self, walk: &Walk<'_>, token: Token<'_>) -> bool {
        match self {
            Sought::Byte(at) => token.at as u64 >= at,
            Sought::Module(n) => walk.is_at("MODULE", 2) && walk.modules == n.saturating_add(1),
            Sought::Named(name) => walk.is_at("MODULE", 2) && token.text == name,
            Sought::Parent(n) => {
                walk.is_at("TYPE", 2) && token.is("PARENT") && walk.parents == n.saturating_add(1)
            }
            Sought::Section(n, word) => {
                walk.part == Part::Bare
                    && walk.words == 1
                    && token.text.eq_ignore_ascii_case(word)
                    && walk.modules == n.saturating_add(1)
            }
            Sought::Line(n, line, word) => {
                walk.part == Part::IoList
                    && walk.modules == n.saturating_add(1)
                    && walk.statements == line.saturating_add(1)
                    && walk.words == word
            }
            Sought::Call(call, word) => {
                walk.is_call() && walk.statements == call.saturating_add(1) && walk.words == word
            }
            Sought::Calling(name) => walk.is_call() && walk.words == 1 && token.text == name,
            Sought::Swallowed => {
                walk.part != Part::Bare && walk.words > 1 && token.is(walk.part.stop())
            }
        }
    }
}

impl<'a> Walk<'a> {
    // Whether it is in a call of a PARENT.
    fn is_call(&self) -> bool {
        self.part == Part::Network && self.is_of("PARENT")
    }
}

/// What was found in a text, if it stands there, and what is known before it; else what is known behind all words.
#[derive(Clone, Copy)]
pub struct Found<'a> {
    pub token: Option<Token<'a>>,
    pub before: Walk<'a>,
}

/// The first word or semicolon of a text that is the one sought.
pub fn find<'a>(text: &'a [u8], sought: Sought<'_>) -> Found<'a> {
    let mut before = Walk::new();
    let mut from = 0;
    for _ in 0..text.len() {
        let Some(token) = next_token(text, from) else {
            break;
        };
        let walk = before.behind(token);
        if sought.is_met(&walk, token) {
            return Found {
                token: Some(token),
                before,
            };
        }
        before = walk;
        from = token.end();
    }
    Found {
        token: None,
        before,
    }
}

/// The place of the first word or semicolon of a text that is the one sought.
pub fn place_of(text: &[u8], sought: Sought<'_>) -> Option<usize> {
    match find(text, sought).token {
        Some(token) => Some(token.at),
        None => None,
    }
}

/// The number of the line, from 1, in which the one sought stands; 0 where it does not.
pub fn line_of(text: &[u8], sought: Sought<'_>) -> u64 {
    match place_of(text, sought) {
        Some(at) => note_text::place_at(text, at as u64).line,
        None => 0,
    }
}
