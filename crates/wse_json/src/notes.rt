// Annotations of changes, and what waits for a confirmation.
ghost use Rattle.std.specs.Prelude.{◌≡◌, ℕ, List, map, option_map, string_bytes, IfOk};
ghost use Rattle.std.specs.BTreeSet.{contains_text};
ghost use Rattle.serde_json.specs.View.{view, members_view};
ghost use Rattle.wse_json.specs.Members.{is_among};
ghost use Rattle.wse_json.specs.Annotations.{annotation_check, annotation_checks, annotations_in, needs_confirmation, skipped_in};
ghost use Rattle.wse_json.specs.Shapes.{Gives};

use crate::kinds::{flag_at, text_at, text_if_there};
use crate::members::optional;
use crate::pointer::{field, under, wrong};
use crate::shape::Shape;
use serde_json::{Map, Value};
use std::alloc::Global;
use std::collections::BTreeSet;
use wse_path::{Memory, Text};

/// The checks of one annotation (LSP 3.17, "ChangeAnnotation").
#[tactic(auto, unfolding(crate::specs::Annotations::annotation_check))]
fn check_annotation(alloc: Global, entry: &Value) -> Result<(), Shape>
    ensures { Gives (annotation_check (view entry.now)) result }
{
    if !entry.is_object() {
        return Err(wrong(alloc));
    }
    if text_at(entry, "label").is_none() {
        return Err(field(alloc, "label"));
    }
    flag_at(alloc, entry, "needsConfirmation")?;
    text_if_there(alloc, entry, "description")?;
    Ok(())
}

/// The checks of all annotations, in byte order of their ids.
fn check_annotations(alloc: Global, annotations: &Map<String, Value>) -> Result<(), Shape>
    ensures { Gives (annotation_checks (members_view annotations.now.entries)) result }
{
    for (id, entry) in annotations {
        if let Err(why) = check_annotation(alloc, entry) {
            return Err(under(alloc, id.as_str(), why));
        }
    }
    Ok(())
}

/// The checks of the annotations of an edit (`changeAnnotations`).
#[tactic(auto, unfolding(crate::specs::Annotations::annotations_in))]
pub fn check_annotations_in(alloc: Global, edit: &Value) -> Result<(), Shape>
    ensures { Gives (annotations_in (view edit.now)) result }
{
    let Some(annotations) = optional(edit, "changeAnnotations") else {
        return Ok(());
    };
    let Some(annotations) = annotations.as_object() else {
        return Err(field(alloc, "changeAnnotations"));
    };
    match check_annotations(alloc, annotations) {
        Ok(()) => Ok(()),
        Err(why) => Err(under(alloc, "changeAnnotations", why)),
    }
}

/// The texts as a set.
pub fn set_of(alloc: Global, texts: &[Text]) -> Result<BTreeSet<String>, Memory>
    ensures { IfOk result (λ set. (text : List ℕ) → contains_text set text ≡ is_among texts.now text) }
{
    let mut set = BTreeSet::new(alloc);
    for text in texts {
        set.insert(String::from_str(alloc, text.as_str())?)?;
    }
    Ok(set)
}

fn needs_confirmation(entry: &Value) -> bool
    ensures { result ≡ needs_confirmation (view entry.now) }
{
    entry
        .get("needsConfirmation")
        .and_then(Value::as_bool)
        .unwrap_or(false)
}

/// The annotations of an edit, and the ids that are confirmed.
#[derive(Clone, Copy)]
pub struct Notes<'a> {
    pub annotations: Option<&'a Value>,
    pub confirmed: &'a BTreeSet<String>,
}

impl<'a> Notes<'a> {
    ghost use Rattle.wse_json.specs.Noted.{waits_by};

    /// Whether what has this id waits for a confirmation, if an annotation has the id.
    #[tactic(auto, unfolding(crate::specs::Annotations::waits_of))]
    pub fn waits(&self, id: &str) -> Option<bool>
        ensures { result ≡ waits_by self.now id.now }
    {
        let entry = self.annotations?.get(id)?;
        Some(needs_confirmation(entry) && !self.confirmed.contains(id))
    }

    /// Whether the operation or the edit of a text is skipped.
    #[tactic(auto, unfolding(crate::specs::Annotations::skipped_in))]
    pub fn skips(&self, alloc: Global, change: &Value) -> Result<bool, Shape>
        ensures { Gives (skipped_in (waits_by self.now) (view change.now)) result }
    {
        let Some(id) = text_if_there(alloc, change, "annotationId")? else {
            return Ok(false);
        };
        match self.waits(id.as_str()) {
            Some(waits) => Ok(waits),
            None => Err(Shape::Annotation { id }),
        }
    }
}
