//! The command to draw a layout.

ghost use Rattle.command_inputs.specs.Reading.{Says, files};
ghost use Rattle.command_words.specs.Command as asked;
ghost use Rattle.command_words.specs.Seen.{draw_seen};
ghost use Rattle.commands.specs.Carried.{Carried};
ghost use Rattle.commands.specs.Changes.{IsTextWritten};
ghost use Rattle.commands.specs.Done.{end_seen};
ghost use Rattle.commands.specs.Drawn.{drawn_text, view_of};
ghost use Rattle.layout_picture.specs.Pictures.{picture_text};
ghost use Rattle.std.specs.Prelude.{◌≡◌, [], Some};

use crate::done::Done;
use crate::heard::Heard;
use command_ends::{Limited, Refusal, Stop};
use command_inputs::{load_given_rules, load_layout};
use command_words::Draw;
use geom_core::{Layout, Rect};
use layout_picture::{MOST_SHOWN, Picture, Roles, View, write_picture};
use note_text::Notes;
use shelf_io::{Failed, Shelf};
use std::alloc::{AllocError, Global};
use tech_rules::Rules;

// What a picture shows: a part of a layout, or all of it, with the roles of its layers under rules, if there are some.
fn view_of(part: Option<Rect>, rules: &Option<Rules>) -> View
    ensures { result ≡ view_of part rules.now }
{
    let roles = match rules {
        Some(rules) => Some(Roles {
            horizontal: rules.horizontal.layer,
            vertical: rules.vertical.layer,
            cut: rules.cut.layer,
            outline: rules.outline.layer,
        }),
        None => None,
    };
    View { part, roles }
}

// The picture of a layout, if it does not show too many shapes.
#[tactic(auto, unfolding(crate::specs::Drawn::drawn_text))]
fn picture_of<'l>(alloc: Global, layout: &'l Layout, view: View) -> Result<Picture<'l>, Refusal>
    ensures { Says (λ picture. picture_text picture.layout.now picture.view) result (drawn_text layout.entry.now view) }
{
    let picture = Picture::new(alloc, layout, view)?;
    let shown = picture.shapes_shown();
    if shown > MOST_SHOWN {
        return Err(Refusal::Limit(Limited::Picture, shown as u64));
    }
    Ok(picture)
}

// Notes how many shapes a picture shows. What memory has no room for is left out.
fn note_drawn(
    alloc: Global,
    notes: &mut Notes,
    out: &str,
    picture: &Picture<'_>,
) -> Result<(), AllocError> {
    let shown = picture.shapes_shown();
    let all = picture.layout.shapes.items().len();
    notes.note(format!(in alloc; "{out}: {shown} of {all} shapes")?);
    Ok(())
}

// Writes a picture into a file. Takes no memory.
fn draw_in<S: Shelf>(shelf: &mut S, file: &str, picture: &Picture<'_>) -> Result<Done, Stop>
    ensures { IsTextWritten (picture_text picture.now.layout.now picture.now.view) file.now (end_seen result)
        (files (S.holds shelf.old) (S.read_faults shelf.old) (S.write_faults shelf.old)) (files (S.holds shelf.new) (S.read_faults shelf.new) (S.write_faults shelf.new)) }
{
    match write_picture(shelf, file, picture) {
        Ok(()) => Ok(Done::Wrote),
        Err(Failed) => Err(Stop::WriteFault),
    }
}

/// Reads rules, if they are given, and a layout, and writes its picture into a file. All other files stay as they are.
pub(crate) fn draw<S: Shelf>(
    alloc: Global,
    shelf: &mut S,
    names: &Draw<'_>,
    heard: &mut Heard,
) -> Result<Done, Stop>
    ensures { Carried (Some (asked.draw (draw_seen names.now))) (end_seen result) []
        (files (S.holds shelf.old) (S.read_faults shelf.old) (S.write_faults shelf.old)) (files (S.holds shelf.new) (S.read_faults shelf.new) (S.write_faults shelf.new)) }
{
    let rules = load_given_rules(alloc, shelf, names.rules, &mut heard.texts)?;
    let layout = load_layout(alloc, shelf, names.cif, None, &mut heard.texts)?;
    let view = view_of(names.part, &rules);
    match picture_of(alloc, &layout, view) {
        Ok(picture) => {
            let _ = note_drawn(alloc, &mut heard.notes, names.out, &picture);
            draw_in(shelf, names.out, &picture)
        }
        Err(refusal) => Err(Stop::Refused(refusal)),
    }
}
