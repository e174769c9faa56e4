//! Notes on words that are no command.

use crate::noting::{Subject, note_told};
use crate::reached::Reached;
use crate::usage::{COMMANDS, Form, OptionForm, form_of, is_lone};
use crate::value_notes::bad_value;
use choose_core::Style;
use command_ends::Stop;
use command_help::help_text;
use command_words::{Topic, Word};
use note_text::Notes;
use std::alloc::{AllocError, Global};
use text_places::{Shown, Told, word_meant};

/// How far the words behind a command's name have been gone through: how many names stood, which options stood, an option whose value is to come, and whether
/// all that follows is names.
#[derive(Clone, Copy)]
struct Passed {
    names: usize,
    options: u64,
    open: Option<OptionForm>,
    closed: bool,
}

// A text, or none.
type Wrong = Result<Option<String>, AllocError>;

// The options of a command behind one another.
fn options_shown(alloc: Global, form: Form) -> Result<String, AllocError> {
    let mut text = String::new(alloc);
    for option in form.options {
        if !text.is_empty() {
            text.push_str(", ")?;
        }
        text.push_str(option.word)?;
    }
    if text.is_empty() {
        text.push_str("none")?;
    }
    Ok(text)
}

// A word that is no option of a command.
fn unknown_option(alloc: Global, form: Form, word: &str) -> Wrong {
    let shown = Shown(word.as_bytes());
    let command = form.word;
    if word == "--help" || word == "-h" {
        return Ok(Some(format!(in alloc; "{shown} stands behind {command}, whose help follows")?));
    }
    let options = options_shown(alloc, form)?;
    let mut words = Vec::new(alloc);
    for option in form.options {
        words.push(option.word)?;
    }
    let near = word_meant(alloc, word.as_bytes(), words.as_slice())?;
    Ok(Some(format!(in alloc;
        "{shown} is no option of {command}; its options are {options}{near}"
    )?))
}

// The name of an option's value.
fn value_name(option: OptionForm) -> &'static str {
    option.value.unwrap_or("")
}

// An option's name after two dashes.
fn long_name(name: &str) -> &str {
    if name == "-q" { "--quiet" } else { name }
}

// Goes past an option, and says what is wrong with it.
fn past_option(
    alloc: Global,
    form: Form,
    styles: &[Style],
    passed: &mut Passed,
    word: &str,
) -> Wrong {
    let (name, value) = match word.split_once('=') {
        Some((name, value)) => (long_name(name), Some(value)),
        None => (long_name(word), None),
    };
    for (i, option) in form.options.iter().enumerate() {
        if option.word != name {
            continue;
        }
        let bit = 1u64 << (i % 64);
        if passed.options & bit != 0 {
            return Ok(Some(format!(in alloc; "{name} stands twice; it may stand once")?));
        }
        passed.options |= bit;
        return match (option.value, value) {
            (None, None) => Ok(None),
            (None, Some(value)) => {
                let value = Shown(value.as_bytes());
                Ok(Some(format!(in alloc; "{name} takes no value, and has {value}")?))
            }
            (Some(_), Some(value)) => bad_value(alloc, styles, name, value),
            (Some(_), None) => {
                passed.open = Some(*option);
                Ok(None)
            }
        };
    }
    unknown_option(alloc, form, name)
}

// Goes past a name, and says what is wrong with it.
fn past_name(alloc: Global, form: Form, passed: &mut Passed, word: &str) -> Wrong {
    let place = passed.names;
    passed.names = place.saturating_add(1);
    let Some(name) = form.names.get(place) else {
        let shown = Shown(word.as_bytes());
        let command = form.word;
        return Ok(Some(format!(in alloc; "{shown} is one word too many for {command}")?));
    };
    if form.word == "make" {
        return bad_value(alloc, &[], *name, word);
    }
    Ok(None)
}

// Whether a word would be an option.
fn is_dashed(word: &str) -> bool {
    word.starts_with('-') && word != "-"
}

// An option whose value does not come.
fn valueless(alloc: Global, option: OptionForm) -> Wrong {
    let name = option.word;
    let value = value_name(option);
    Ok(Some(format!(in alloc; "{name} wants a value behind it, {name} {value}")?))
}

// An option behind which a word with a dash stands.
fn dashed_value(alloc: Global, option: OptionForm, word: &str) -> Wrong {
    let name = option.word;
    let value = value_name(option);
    let shown = Shown(word.as_bytes());
    if name == "--box" {
        return Ok(Some(format!(in alloc;
            "{name} wants a value behind it, {name} {value}, and {shown} begins with a dash; {name}={shown} may"
        )?));
    }
    Ok(Some(format!(in alloc;
        "{name} wants a value behind it, {name} {value}, and {shown} begins with a dash"
    )?))
}

// Goes past a word, and says what is wrong with it.
fn past_word(
    alloc: Global,
    form: Form,
    styles: &[Style],
    passed: &mut Passed,
    word: &str,
) -> Wrong {
    if let Some(option) = passed.open {
        if is_dashed(word) {
            return dashed_value(alloc, option, word);
        }
        passed.open = None;
        return bad_value(alloc, styles, option.word, word);
    }
    if passed.closed || !is_dashed(word) {
        return past_name(alloc, form, passed, word);
    }
    if word == "--" {
        passed.closed = true;
        return Ok(None);
    }
    past_option(alloc, form, styles, passed, word)
}

// What is missing behind all words.
fn lacking(alloc: Global, form: Form, passed: Passed) -> Result<String, AllocError> {
    if let Some(option) = passed.open {
        if let Some(text) = valueless(alloc, option)? {
            return Ok(text);
        }
    }
    let command = form.word;
    match form.names.get(passed.names) {
        Some(name) => format!(in alloc; "{name} is missing behind {command}"),
        None => format!(in alloc; "these words are no command"),
    }
}

// What is wrong with the words behind the name of a command.
fn wrong_words(
    alloc: Global,
    form: Form,
    styles: &[Style],
    words: &[Word],
) -> Result<String, AllocError> {
    let mut passed = Passed {
        names: 0,
        options: 0,
        open: None,
        closed: false,
    };
    for word in words {
        if let Some(text) = past_word(alloc, form, styles, &mut passed, word.text())? {
            return Ok(text);
        }
    }
    lacking(alloc, form, passed)
}

// Notes what is wrong, and the lines of a help.
fn note_with_help(
    alloc: Global,
    notes: &mut Notes,
    name: &str,
    what: String,
    topic: Topic,
    stop: &Stop,
) -> Result<(), AllocError> {
    let subject = Subject { name, text: None };
    note_told(alloc, notes, &subject, &Told::whole(what), stop)?;
    for line in help_text(topic).split('\n') {
        if !line.is_empty() {
            notes.note(String::from_str(alloc, line)?);
        }
    }
    Ok(())
}

/// Notes which word is wrong, what is wanted in its place, and the help of the command.
pub(crate) fn note_usage(
    alloc: Global,
    notes: &mut Notes,
    reached: &Reached<'_>,
    stop: &Stop,
) -> Result<(), AllocError> {
    let Some((first, rest)) = reached.words.split_first() else {
        let what = format!(in alloc;
            "a command is wanted: route, check, make, draw, import or help"
        )?;
        return note_with_help(alloc, notes, "cellroute", what, Topic::Overview, stop);
    };
    let word = first.text();
    if is_lone(word) {
        let what = format!(in alloc;
            "{word} stands alone; help may have the name of one command behind it: route, check, make, draw or import"
        )?;
        return note_with_help(alloc, notes, "cellroute", what, Topic::Overview, stop);
    }
    let Some(form) = form_of(word) else {
        let shown = Shown(word.as_bytes());
        let near = word_meant(alloc, word.as_bytes(), COMMANDS)?;
        let what = format!(in alloc;
            "{shown} is no command; route, check, make, draw, import, help and version are{near}"
        )?;
        return note_with_help(alloc, notes, "cellroute", what, Topic::Overview, stop);
    };
    let command = form.word;
    let name = format!(in alloc; "cellroute {command}")?;
    let what = wrong_words(alloc, form, reached.styles, rest)?;
    note_with_help(alloc, notes, name.as_str(), what, form.topic, stop)
}
