//! Prints a summary, a line in one piece where the sink takes it so.

ghost use Rattle.layout_report.specs.SummaryText.{by_word, channel_text, channels_text, lines_text, summary_text, taken_words};
ghost use Rattle.shelf_io.specs.Lines.{word_text};
ghost use Rattle.shelf_io.specs.Wrote.{Puts};
ghost use Rattle.std.specs.Prelude.{◌≡◌, map};

use crate::summary::{ChannelLine, Summary, Taken};
use geom_core::Items;
use greedy_router::By;
use shelf_io::LineWord::{self, Number, Text};
use shelf_io::{Failed, Sink, put_line};

// Prints lines, one after another.
fn print_lines<K: Sink>(out: &mut K, lines: &[&[LineWord<'_>]]) -> Result<(), Failed>
    ensures { Puts result (lines_text (map (λ words. map word_text words.now) lines.now)) (K.written out.old) (K.written out.new) (K.faults out.old) (K.faults out.new) (K.same_place out.old out.new) (K.else_same out.old out.new) }
{
    let Some((words, after)) = lines.split_first() else {
        return Ok(());
    };
    put_line(out, words)?;
    print_lines(out, after)
}

fn by_word(by: By) -> &'static [u8]
    ensures { result.now ≡ by_word by }
{
    match by {
        By::Greedy => b"greedy",
        By::Plain => b"plain",
        By::Edge => b"edge",
    }
}

// Prints the line of the channel of this number.
#[tactic(auto, unfolding(crate::specs::SummaryText::channel_text))]
fn print_channel<K: Sink>(out: &mut K, number: u64, channel: &ChannelLine) -> Result<(), Failed>
    ensures { Puts result (channel_text number channel.now) (K.written out.old) (K.written out.new) (K.faults out.old) (K.faults out.new) (K.same_place out.old out.new) (K.else_same out.old out.new) }
{
    let words = [
        Text(b"channel"),
        Number(number),
        Text(b"tracks"),
        Number(channel.tracks as u64),
        Text(b"extra"),
        Number(channel.extra as u64),
        Text(by_word(channel.by)),
    ];
    put_line(out, &words)
}

// Prints the lines of channels.
fn print_channels<K: Sink>(out: &mut K, channels: &Items<ChannelLine>) -> Result<(), Failed>
    ensures { Puts result (channels_text 0 channels.now) (K.written out.old) (K.written out.new) (K.faults out.old) (K.faults out.new) (K.same_place out.old out.new) (K.else_same out.old out.new) }
{
    let mut number: usize = 0;
    let mut rest = channels.items();
    while let Some((channel, after)) = rest.split_first() {
        print_channel(out, number as u64, channel)?;
        number += 1;
        rest = after;
    }
    Ok(())
}

// Prints the line of the placement that was taken, where there were several.
fn print_taken<K: Sink>(out: &mut K, taken: Option<Taken>) -> Result<(), Failed>
    ensures { Puts result (lines_text (taken_words taken)) (K.written out.old) (K.written out.new) (K.faults out.old) (K.faults out.new) (K.same_place out.old out.new) (K.else_same out.old out.new) }
{
    let Some(Taken { rows, seed }) = taken else {
        return print_lines(out, &[]);
    };
    let line: [&[LineWord<'_>]; 1] = [&[
        Text(b"taken"),
        Text(b"rows"),
        Number(rows as u64),
        Text(b"seed"),
        Number(seed),
    ]];
    print_lines(out, &line)
}

/// Prints a summary: the lines `cells`, `nets`, `rows` and `feeds` with their numbers, for each channel from the lowest up the line `channel`
/// with its number, its tracks, its extra columns and its router, then `size` with width and height and `cost`, and `taken` with the rows and the seed of the placement that was taken,
/// where there were several. Each line is put in one piece
/// where the sink takes it so. After Failed, which comes only where the sink's count rose, a front of the lines was put. Takes no memory.
pub fn print_summary<K: Sink>(summary: &Summary, out: &mut K) -> Result<(), Failed>
    ensures { Puts result (summary_text summary.now) (K.written out.old) (K.written out.new) (K.faults out.old) (K.faults out.new) (K.same_place out.old out.new) (K.else_same out.old out.new) }
{
    let counts: [&[LineWord<'_>]; 4] = [
        &[Text(b"cells"), Number(summary.cells as u64)],
        &[Text(b"nets"), Number(summary.nets as u64)],
        &[Text(b"rows"), Number(summary.rows as u64)],
        &[Text(b"feeds"), Number(summary.feeds)],
    ];
    print_lines(out, &counts)?;
    print_channels(out, &summary.channels)?;
    let end: [&[LineWord<'_>]; 2] = [
        &[Text(b"size"), Number(summary.width), Number(summary.height)],
        &[Text(b"cost"), Number(summary.cost)],
    ];
    print_lines(out, &end)?;
    print_taken(out, summary.taken)
}
