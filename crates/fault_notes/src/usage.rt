//! The words that the commands take.

use command_words::Topic;

/// An option of a command: its word, and the name of its value if it takes one.
#[derive(Clone, Copy)]
pub(crate) struct OptionForm {
    pub(crate) word: &'static str,
    pub(crate) value: Option<&'static str>,
}

/// The form of a command: its word, the names that it wants, its options and its help.
#[derive(Clone, Copy)]
pub(crate) struct Form {
    pub(crate) word: &'static str,
    pub(crate) names: &'static [&'static str],
    pub(crate) options: &'static [OptionForm],
    pub(crate) topic: Topic,
}

/// The names of the commands.
pub(crate) const COMMANDS: &[&str] = &[
    "route", "check", "make", "draw", "import", "help", "version",
];

const SEED: OptionForm = OptionForm {
    word: "--seed",
    value: Some("N"),
};

const ROWS: OptionForm = OptionForm {
    word: "--rows",
    value: Some("K"),
};

const TRIES: OptionForm = OptionForm {
    word: "--tries",
    value: Some("N"),
};

const STYLE: OptionForm = OptionForm {
    word: "--style",
    value: Some("NAME"),
};

const EDGE: OptionForm = OptionForm {
    word: "--edge",
    value: None,
};

const PORTS: OptionForm = OptionForm {
    word: "--ports",
    value: None,
};

const LABELS: OptionForm = OptionForm {
    word: "--labels",
    value: None,
};

const MARKERS: OptionForm = OptionForm {
    word: "--markers",
    value: Some("FILE"),
};

const BOX: OptionForm = OptionForm {
    word: "--box",
    value: Some("X0,Y0,X1,Y1"),
};

const RULES: OptionForm = OptionForm {
    word: "--rules",
    value: Some("RULES"),
};

const DECIMALS: OptionForm = OptionForm {
    word: "--decimals",
    value: Some("D"),
};

const PROGRESS: OptionForm = OptionForm {
    word: "--progress",
    value: None,
};

const QUIET: OptionForm = OptionForm {
    word: "--quiet",
    value: None,
};

const ROUTE: Form = Form {
    word: "route",
    names: &["DESIGN", "RULES", "OUT"],
    options: &[
        SEED, ROWS, TRIES, STYLE, EDGE, PORTS, LABELS, PROGRESS, QUIET,
    ],
    topic: Topic::RouteCommand,
};

const CHECK: Form = Form {
    word: "check",
    names: &["DESIGN", "RULES", "CIF"],
    options: &[MARKERS, PORTS, LABELS, QUIET],
    topic: Topic::CheckCommand,
};

const MAKE: Form = Form {
    word: "make",
    names: &["SEED", "N", "RULES", "OUT"],
    options: &[TRIES, PROGRESS, QUIET],
    topic: Topic::MakeCommand,
};

const DRAW: Form = Form {
    word: "draw",
    names: &["CIF", "OUT"],
    options: &[BOX, RULES, QUIET],
    topic: Topic::DrawCommand,
};

const IMPORT: Form = Form {
    word: "import",
    names: &["BLIF", "CELLS", "OUT"],
    options: &[DECIMALS, QUIET],
    topic: Topic::ImportCommand,
};

/// The form of the command of this name.
pub(crate) fn form_of(word: &str) -> Option<Form> {
    match word {
        "route" => Some(ROUTE),
        "check" => Some(CHECK),
        "make" => Some(MAKE),
        "draw" => Some(DRAW),
        "import" => Some(IMPORT),
        _ => None,
    }
}

/// Whether a word asks for help or for the version, and stands alone.
pub(crate) fn is_lone(word: &str) -> bool {
    matches!(word, "help" | "--help" | "-h" | "version" | "--version")
}
