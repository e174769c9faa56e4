//! The text of help that is asked for.

ghost use Rattle.command_help.specs.Texts.{text_on};
ghost use Rattle.shelf_io.specs.Wrote.{Puts};
ghost use Rattle.std.specs.Prelude.{◌≡◌};

use crate::texts::{CHECK_HELP, DRAW_HELP, IMPORT_HELP, MAKE_HELP, OVERVIEW, ROUTE_HELP, VERSION};
use command_words::Topic;
use shelf_io::{Failed, Sink, put_whole};

/// The text of help on a topic, in lines. Takes no memory.
#[tactic(auto, unfolding(crate::specs::Texts::text_on))]
pub fn help_text(topic: Topic) -> &'static str
    ensures { result.now ≡ text_on topic }
{
    match topic {
        Topic::Overview => OVERVIEW,
        Topic::RouteCommand => ROUTE_HELP,
        Topic::CheckCommand => CHECK_HELP,
        Topic::MakeCommand => MAKE_HELP,
        Topic::DrawCommand => DRAW_HELP,
        Topic::ImportCommand => IMPORT_HELP,
        Topic::Version => VERSION,
    }
}

/// Puts the text of help on a topic, in one piece where the sink takes it so. It errs where the sink failed, whose count then rose, and leaves a front of the text. Takes no memory.
pub fn put_help<K: Sink>(out: &mut K, topic: Topic) -> Result<(), Failed>
    ensures { Puts result (text_on topic) (K.written out.old) (K.written out.new) (K.faults out.old) (K.faults out.new) (K.same_place out.old out.new) (K.else_same out.old out.new) }
{
    put_whole(out, help_text(topic).as_bytes())
}
