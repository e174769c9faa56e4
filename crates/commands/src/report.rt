//! What a command prints at its end, and its status.

ghost use Rattle.commands.specs.Done as done;
ghost use Rattle.commands.specs.Done.{end_seen, findings_status};
ghost use Rattle.commands.specs.Outcome.{IsStopped, Tells};
ghost use Rattle.std.specs.Prelude.{◌≡◌, Ok};

use crate::done::{Done, Judged};
use command_ends::{Stop, print_line, put_judged};
use command_help::put_help;
use command_words::Topic;
use layout_report::{Summary, print_summary};
use shelf_io::{Failed, Sink};

// The status of a layout that was judged.
fn status_of(judged: &Judged) -> u8
    ensures { result ≡ findings_status judged.now.findings.items }
{
    if judged.findings.is_empty() { 0 } else { 1 }
}

// Prints what was found of a layout, and gives the status: 9 where the sink failed. Takes no memory.
fn report_judged<K: Sink>(out: &mut K, judged: &Judged) -> u8
    ensures { Tells (Ok (done.judged judged.now.inputs judged.now.layout judged.now.findings.items)) result
        (K.written out.old) (K.written out.new) (K.faults out.old) (K.faults out.new) }
{
    let findings = judged.findings.as_slice();
    let design = &judged.inputs.designs.drawn.design;
    match put_judged(out, design, &judged.layout, findings) {
        Ok(()) => status_of(judged),
        Err(Failed) => {
            print_line(out, &Stop::WriteFault);
            9
        }
    }
}

// Prints a layout in short, and gives the status: 9 where the sink failed. Takes no memory.
fn report_laid<K: Sink>(out: &mut K, summary: &Summary) -> u8
    ensures { Tells (Ok (done.laid_out summary.now)) result (K.written out.old) (K.written out.new) (K.faults out.old) (K.faults out.new) }
{
    match print_summary(summary, out) {
        Ok(()) => 0,
        Err(Failed) => {
            print_line(out, &Stop::WriteFault);
            9
        }
    }
}

// Prints a text of help, and gives the status: 9 where the sink failed. Takes no memory.
fn report_help<K: Sink>(out: &mut K, topic: Topic) -> u8
    ensures { Tells (Ok (done.helped topic)) result (K.written out.old) (K.written out.new) (K.faults out.old) (K.faults out.new) }
{
    match put_help(out, topic) {
        Ok(()) => 0,
        Err(Failed) => {
            print_line(out, &Stop::WriteFault);
            9
        }
    }
}

// Prints nothing of a text that was written, and gives the status. Takes no memory.
fn report_wrote<K: Sink>(_out: &mut K) -> u8
    ensures { Tells (Ok done.wrote) result (K.written _out.old) (K.written _out.new) (K.faults _out.old) (K.faults _out.new) }
{
    0
}

// Prints the line of what stopped a command, as far as the sink takes it, and gives the status. Takes no memory.
fn report_stop<K: Sink>(out: &mut K, stop: &Stop) -> u8
    ensures { IsStopped stop.now result (K.written out.old) (K.written out.new) (K.faults out.old) (K.faults out.new) }
{
    print_line(out, stop);
    stop.status()
}

/// Prints what was done, or what stopped it, and gives the status: 9 where the sink failed as it took what was done. Takes no memory.
pub(crate) fn report<K: Sink>(out: &mut K, ending: &Result<Done, Stop>) -> u8
    ensures { Tells (end_seen ending.now) result (K.written out.old) (K.written out.new) (K.faults out.old) (K.faults out.new) }
{
    match ending {
        Ok(Done::LaidOut(summary)) => report_laid(out, summary),
        Ok(Done::Judged(judged)) => report_judged(out, judged),
        Ok(Done::Wrote) => report_wrote(out),
        Ok(Done::Helped(topic)) => report_help(out, *topic),
        Err(stop) => report_stop(out, stop),
    }
}
