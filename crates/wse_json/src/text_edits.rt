// Edits of texts.
ghost use Rattle.std.specs.Prelude.{codes};
ghost use Rattle.serde_json.specs.View.{view, items_view};
ghost use Rattle.wse_json.specs.Kinds.{an_object, within};
ghost use Rattle.wse_json.specs.Noted.{waits_by};
ghost use Rattle.wse_json.specs.Shapes.{Gives};
ghost use Rattle.wse_json.specs.TextEdits.{position_of, range_of, text_edit_of, text_edits_of};

use crate::kinds::{object_at, text_at, whole_at};
use crate::notes::Notes;
use crate::pointer::{field, under, under_item, wrong};
use crate::shape::Shape;
use serde_json::Value;
use std::alloc::Global;
use wse_path::{Edits, Items, Position, Text, TextEdit};

#[tactic(auto, unfolding(crate::specs::TextEdits::position_of))]
fn position_of(alloc: Global, position: &Value) -> Result<Position, Shape>
    ensures { Gives (position_of (view position.now)) result }
{
    let Some(line) = whole_at(position, "line") else {
        return Err(field(alloc, "line"));
    };
    let Some(character) = whole_at(position, "character") else {
        return Err(field(alloc, "character"));
    };
    Ok(Position { line, character })
}

/// The position in the member of this name.
fn position_at(alloc: Global, range: &Value, name: &str) -> Result<Position, Shape>
    ensures { Gives (within name.now an_object position_of (view range.now)) result }
{
    let Some(position) = object_at(range, name) else {
        return Err(field(alloc, name));
    };
    match position_of(alloc, position) {
        Ok(position) => Ok(position),
        Err(why) => Err(under(alloc, name, why)),
    }
}

/// The start and the end of a range.
#[tactic(auto, unfolding(crate::specs::TextEdits::range_of))]
fn range_of(alloc: Global, range: &Value) -> Result<(Position, Position), Shape>
    ensures { Gives (range_of (view range.now)) result }
{
    let start = position_at(alloc, range, "start")?;
    let end = position_at(alloc, range, "end")?;
    Ok((start, end))
}

fn range_at(alloc: Global, edit: &Value) -> Result<(Position, Position), Shape>
    ensures { Gives (within (codes "range") an_object range_of (view edit.now)) result }
{
    let Some(range) = object_at(edit, "range") else {
        return Err(field(alloc, "range"));
    };
    match range_of(alloc, range) {
        Ok(places) => Ok(places),
        Err(why) => Err(under(alloc, "range", why)),
    }
}

#[tactic(auto, unfolding(crate::specs::TextEdits::text_edit_of))]
fn text_edit_of(alloc: Global, notes: &Notes, edit: &Value) -> Result<TextEdit, Shape>
    ensures { Gives (text_edit_of (waits_by notes.now) (view edit.now)) result }
{
    if !edit.is_object() {
        return Err(wrong(alloc));
    }
    let (start, end) = range_at(alloc, edit)?;
    let Some(text) = text_at(edit, "newText") else {
        return Err(field(alloc, "newText"));
    };
    let new_text = Text::new(String::from_str(alloc, text)?);
    let skipped = notes.skips(alloc, edit)?;
    Ok(TextEdit {
        start,
        end,
        new_text,
        skipped,
    })
}

pub fn text_edits_of(alloc: Global, notes: &Notes, edits: &[Value]) -> Result<Edits, Shape>
    ensures { Gives (text_edits_of (waits_by notes.now) (items_view edits.now)) result }
{
    let mut all = Vec::new(alloc);
    for (index, edit) in edits.iter().enumerate() {
        match text_edit_of(alloc, notes, edit) {
            Ok(edit) => all.push(edit)?,
            Err(why) => return Err(under_item(alloc, index, why)),
        }
    }
    Ok(Items::new(all))
}
