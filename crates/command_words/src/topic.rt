//! What words may ask to be told.

ghost use Rattle.command_words.specs.Command.{command_topic, lone_topic, topic_of};
ghost use Rattle.std.specs.Prelude.{◌≡◌};

use crate::word::Word;

/// A text of help: the commands in short, one of them with its options, or the version of the program.
#[derive(Clone, Copy, Debug, PartialEq, Eq)]
pub enum Topic {
    Overview,
    RouteCommand,
    CheckCommand,
    MakeCommand,
    DrawCommand,
    ImportCommand,
    Version,
}

// What a word asks for that stands alone.
fn lone_topic(word: &str) -> Option<Topic>
    ensures { result ≡ lone_topic word.now }
{
    if word == "help" || word == "--help" || word == "-h" {
        return Some(Topic::Overview);
    }
    if word == "version" || word == "--version" {
        return Some(Topic::Version);
    }
    None
}

// The help on the command of this name.
fn command_topic(name: &str) -> Option<Topic>
    ensures { result ≡ command_topic name.now }
{
    if name == "route" {
        return Some(Topic::RouteCommand);
    }
    if name == "check" {
        return Some(Topic::CheckCommand);
    }
    if name == "make" {
        return Some(Topic::MakeCommand);
    }
    if name == "draw" {
        return Some(Topic::DrawCommand);
    }
    if name == "import" {
        return Some(Topic::ImportCommand);
    }
    None
}

/// The text of help that words ask for: one word alone, or `help` and the name of a command. Takes no memory.
#[tactic(auto, unfolding(crate::specs::Command::topic_of))]
pub(crate) fn topic_of(words: &[Word]) -> Option<Topic>
    ensures { result ≡ topic_of words.now }
{
    match words {
        [word] => lone_topic(word.text()),
        [word, name] => {
            if word.text() == "help" {
                command_topic(name.text())
            } else {
                None
            }
        }
        _ => None,
    }
}
