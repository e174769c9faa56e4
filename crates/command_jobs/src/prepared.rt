//! A design that is laid out and routed, and ready to be written.

ghost use Rattle.command_ends.specs.Answers.{Answers};
ghost use Rattle.command_ends.specs.Status.{refusal_status};
ghost use Rattle.command_jobs.specs.Limits.{within_limits};
ghost use Rattle.command_jobs.specs.Summarized.{cost_for, summary_of};
ghost use Rattle.command_jobs.specs.Text.{AreRoutedRows, channels_of, job_text};
ghost use Rattle.command_jobs.specs.Tries.{estimate_for, job_of, taken_try, try_of};
ghost use Rattle.command_jobs.specs.Written.{IsPortedText};
ghost use Rattle.cif_writer.specs.Labels.{first_pins};
ghost use Rattle.cif_writer.specs.LayoutText.{HoldsFront};
ghost use Rattle.design_model.specs.Room.{HasRoom};
ghost use Rattle.greedy_router.specs.Answers.{AreRouted};
ghost use Rattle.limits.specs.declared.TheConstants.{MOST_ROWS};
ghost use Rattle.pin_assign.specs.Tables.{tables_of};
ghost use Rattle.placement_tries.specs.Taking.{IsFirstLeast};
ghost use Rattle.port_rows.specs.Designs.{placed_in};
ghost use Rattle.port_rows.specs.PortRows.{HoldCells};
ghost use Rattle.row_model.specs.Rows.{ArePlaced};
ghost use Rattle.row_model.specs.declared.rows.Seat.{Seat};
ghost use Rattle.shelf_io.specs.Count.{Rose};
ghost use Rattle.shelf_io.specs.OtherFiles.{OthersSame};
ghost use Rattle.shelf_io.specs.Told.{Refines};
ghost use Rattle.std.specs.Prelude.{◌≡◌, ◌≢◌, ◌≤◌, List, length, is_ok, is_some, Some, IfErr, IfOk, IfSome, OnErr, OnOk, ℕ};

use crate::job_limits::moves_refusal;
use crate::placing::{Annealed, Placed};
use crate::routing::{RoutedRows, route_rows};
use crate::summarizing::{channel_lines, feed_wire, summarized};
use crate::trying::job_placed;
use channel_stack::{Laid, lay};
use choose_core::{Chooser, Chooses, Style};
use cif_writer::{
    FirstPins, RoutedDesign, Symbols, first_pins, symbol_drawings, write_layout_watched,
};
use command_ends::Refusal;
use command_words::Wanted;
use design_model::Design;
use feed_cells::FedRows;
use greedy_router::Routed;
use layout_notes::{LaidLayout, note_layout};
use layout_report::Summary;
use note_text::Notes;
use port_rows::Designs;
use progress::Watch;
use shelf_io::{Failed, Shelf};
use std::alloc::{AllocError, Global};
use std::marker::Model;
use tech_rules::Rules;

/// Designs with their rules, laid out as is wanted: the rows with feeds, the routed channels, where all of it lies, the drawings of the symbols, the layout in short, and what its rows cost
/// before they were annealed. Contracts see the job and the routed channels, by which all else is given.
#[derive(Drop)]
pub struct Prepared {
    rules: Rules,
    designs: Designs,
    wanted: Wanted,
    fed: FedRows,
    kept: Vec<Routed>,
    laid: Laid,
    symbols: Symbols,
    first_pins: Option<FirstPins>,
    summary: Summary,
    first_cost: u64,
}

/// The routed channels of a design that is laid out, and the layout in short.
#[derive(Drop)]
pub struct Told {
    pub kept: Vec<Routed>,
    pub summary: Summary,
}

impl Model for Prepared {
    ghost use Rattle.command_jobs.specs.PreparedView.{RoutedJob, job_in, IsPrepared};

    ghost Value = { RoutedJob };

    ghost view = { job_in };

    ghost invariant = { IsPrepared };
}

// The first pins of the nets of a design where labels are wished for. The one error is want of memory.
fn pins_to_label(
    alloc: Global,
    design: &Design,
    labels: bool,
) -> Result<Option<FirstPins>, AllocError>
    ensures given { IfOk result (λ found. is_some found ≡ labels) }
    ensures first { IfOk result (λ found. IfSome found (λ pins. pins ≡ first_pins design.now)) }
{
    if labels {
        Ok(Some(first_pins(alloc, design)?))
    } else {
        Ok(None)
    }
}

// Lays the rows of a job with feeds and routed channels, draws their symbols, and tells of them in short. They were annealed so. The one error is want of memory.
fn ready(
    alloc: Global,
    designs: Designs,
    rules: Rules,
    wanted: Wanted,
    fed: FedRows,
    rows: RoutedRows,
    annealed: Annealed,
) -> Result<Prepared, AllocError>
    requires high { HasRoom rules designs.drawn.design }
    requires rows { AreRoutedRows (job_of rules designs wanted) fed rows.routed.items }
    requires channels { rows.channels.items ≡ tables_of designs.drawn.design fed }
    requires cost { annealed.cost ≡ cost_for (job_of rules designs wanted) }
    requires count { annealed.rows ≡ (job_of rules designs wanted).rows }
    requires seed { annealed.seed ≡ (job_of rules designs wanted).seed }
    ensures { IfOk result (λ made. made ≡ record { job = job_of rules designs wanted; kept = rows.routed.items }) }
{
    let RoutedRows { channels, routed } = rows;
    // What every value of the rules keeps is known once a field is read.
    let _ = &rules.version;
    let drawn = &designs.drawn.design;
    let wirings = routed.as_slice();
    let lines = channel_lines(alloc, wirings, &fed)?;
    let symbols = symbol_drawings(alloc, drawn, &fed, &rules)?;
    let laid = lay(alloc, drawn, &fed, channels.as_slice(), wirings, &rules)?;
    let first_pins = pins_to_label(alloc, drawn, wanted.labels)?;
    let summary = summarized(drawn, &fed, lines, &laid, annealed, wanted.tries);
    Ok(Prepared {
        rules,
        designs,
        wanted,
        fed,
        kept: routed,
        laid,
        symbols,
        first_pins,
        summary,
        first_cost: annealed.first_cost,
    })
}

/// Designs laid out as is wanted: the one placed without its ports, by the first of its tries whose layout is estimated to have the least area, and the other drawn with them and routed by
/// the choices of a style, if that is within the limits. Each cell has room for its pins. One that watches is told of the stages of annealing and of the channels.
#[tactic(auto, unfolding(crate::specs::Limits::within_limits))]
pub fn lay_out<W: Watch>(
    alloc: Global,
    designs: Designs,
    rules: Rules,
    wanted: Wanted,
    style: &Style,
    watch: &mut W,
) -> Result<Prepared, Refusal>
    requires high { HasRoom rules designs.drawn.design }
    requires hold { (rows : List (List Seat)) → ArePlaced (placed_in designs) rows → length rows ≤ MOST_ROWS → HoldCells designs.drawn rows }
    ensures made { Answers (λ prepared. prepared.job) result (within_limits (job_of rules designs wanted)) }
    ensures is { IfOk result (λ prepared. prepared.job ≡ job_of rules designs wanted) }
    ensures taken { IsFirstLeast (λ (number : ℕ). estimate_for (try_of rules designs wanted number)) wanted.tries (taken_try rules designs wanted) }
    ensures kept { IfOk result (λ prepared. AreRouted wanted.edge style.now.plan (⟦<Chooser as Chooses>⟧.answers style.now.chooser) (channels_of prepared.job) prepared.kept) }
    ensures command { IfErr result (λ refusal. refusal_status refusal ≢ 2) }
    ensures goes { W.goes watch.old watch.new }
{
    let tries = wanted.tries.get();
    if let Some(refusal) = moves_refusal(designs.placed(), &rules, tries) {
        return Err(refusal);
    }
    let Placed {
        annealed,
        fed,
        placement,
    } = job_placed(alloc, &designs, &rules, &wanted, watch)?;
    let drawn = &designs.drawn.design;
    let edge = wanted.edge;
    let routed = route_rows(alloc, drawn, &rules, &fed, placement, style, edge, watch)?;
    let made = ready(alloc, designs, rules, wanted, fed, routed, annealed)?;
    Ok(made)
}

impl Prepared {
    /// Makes a file hold the text of the design, and nothing else. Failed comes only where the file's write count rose, and then the file holds what it held before, or a front of the
    /// text. Takes no memory. One that watches is told of the shapes of channels that are written.
    #[tactic(auto, unfolding(crate::specs::Text::job_text))]
    pub fn write<S: Shelf, W: Watch>(
        &self,
        shelf: &mut S,
        out: &str,
        watch: &mut W,
    ) -> Result<(), Failed>
        ensures whole { OnOk result (Refines (S.holds shelf.new out.now) (Some (job_text self.now.job self.now.kept))) }
        ensures good { IsPortedText self.now.job.rules self.now.job.drawn (job_text self.now.job self.now.kept) }
        ensures front { OnErr result (HoldsFront (job_text self.now.job self.now.kept) (S.holds shelf.old out.now) (S.holds shelf.new out.now)) }
        ensures others { OthersSame (is_ok result) out.now (S.holds shelf.old) (S.holds shelf.new) (S.read_faults shelf.old) (S.read_faults shelf.new) (S.write_faults shelf.old) (S.write_faults shelf.new) }
        ensures cause { OnErr result (Rose (S.write_faults shelf.old out.now) (S.write_faults shelf.new out.now)) }
        ensures goes { W.goes watch.old watch.new }
    {
        let routed = RoutedDesign {
            design: &self.designs.drawn.design,
            fed: &self.fed,
            wirings: self.kept.as_slice(),
            laid: &self.laid,
            symbols: &self.symbols,
            labels: self.first_pins.as_ref(),
            rules: &self.rules,
        };
        write_layout_watched(shelf, out, &routed, watch)
    }

    /// Notes what people are told of the layout that is to be written to a file of this name. What memory has no room for is left out.
    pub fn note(&self, alloc: Global, notes: &mut Notes, out: &str) {
        let laid = LaidLayout {
            out_name: out,
            design: &self.designs.drawn.design,
            rules: &self.rules,
            summary: &self.summary,
            routed: self.kept.as_slice(),
            feed_wire: feed_wire(&self.fed, &self.laid),
            first_cost: self.first_cost,
        };
        note_layout(alloc, notes, &laid);
    }

    /// Its routed channels, and the layout in short. Takes no memory.
    pub fn told(self) -> Told
        ensures kept { result.kept.items ≡ self.kept }
        ensures summary { result.summary ≡ summary_of self.job self.kept }
    {
        let Prepared { kept, summary, .. } = self;
        Told { kept, summary }
    }
}
