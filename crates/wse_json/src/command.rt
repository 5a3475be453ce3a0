// Commands as lines.
ghost use Rattle.std.specs.Prelude.{◌≡◌, ◌⊎◌, [], codes, Some, None, Ok, Err, option_map, option_and_then, IfOk, IfErr};
ghost use Rattle.serde_json.specs.View.{view, items_view};
ghost use Rattle.wse_uri.specs.FileUrl.{IsPlainFileUrl};
ghost use Rattle.wse_json.specs.Commands.{failure_names, encoding_names, choice_names, verb_names, a_text, texts_of, confirmed_in, edit_in, move_in, outside_in, command_by, command_of, command_in};
ghost use Rattle.wse_json.specs.Kinds.{a_text_up_to, a_whole_up_to, one_of, standard};
ghost use Rattle.wse_json.specs.Members.{reading, optional};
ghost use Rattle.wse_json.specs.Shapes.{Gives, HasUriCause};

use crate::changes::workspace_edit_of;
use crate::kinds::{Member, member_or, object_at, text_if_there};
use crate::members::optional;
use crate::paths::{path_at, paths_in};
use crate::pointer::{field, under, under_item, wrong};
use crate::shape::Shape;
use serde_json::Value;
use std::alloc::Global;
use url::Url;
use wse_path::{Choice, Command, Direction, Edit, Encoding, FailureKind, Items, Label, Text};

/// The text, if it is one of at most as many bytes as a label may have.
fn label_of(label: &Value) -> Option<&str>
    ensures { option_map (λ text. text.now) result ≡ a_text_up_to 1024 (view label.now) }
{
    label.as_str().filter(|text| text.len() <= Label::MAX)
}

fn label_in(alloc: Global, line: &Value) -> Result<Label, Shape>
    ensures { Gives (standard (codes "label") (a_text_up_to 1024) [] (view line.now)) result }
{
    let Some(label) = optional(line, "label") else {
        return Ok(Label::new(String::new(alloc)));
    };
    match label_of(label) {
        Some(text) => Ok(Label::new(String::from_str(alloc, text)?)),
        None => Err(field(alloc, "label")),
    }
}

impl Member for FailureKind {
    ghost kind = { one_of failure_names };

    fn read(value: &Value) -> Option<FailureKind>
        ensures { result ≡ one_of failure_names (view value.now) }
    {
        match value.as_str()? {
            "abort" => Some(FailureKind::Abort),
            "transactional" => Some(FailureKind::Transactional),
            "textOnlyTransactional" => Some(FailureKind::TextOnlyTransactional),
            "undo" => Some(FailureKind::Undo),
            _ => None,
        }
    }
}

impl Member for Encoding {
    ghost kind = { one_of encoding_names };

    fn read(value: &Value) -> Option<Encoding>
        ensures { result ≡ one_of encoding_names (view value.now) }
    {
        match value.as_str()? {
            "utf-8" => Some(Encoding::Utf8),
            "utf-16" => Some(Encoding::Utf16),
            "utf-32" => Some(Encoding::Utf32),
            _ => None,
        }
    }
}

fn text_of(alloc: Global, item: &Value) -> Result<Text, Shape>
    ensures { Gives (a_text (view item.now)) result }
{
    match item.as_str() {
        Some(text) => Ok(Text::new(String::from_str(alloc, text)?)),
        None => Err(wrong(alloc)),
    }
}

fn texts_of(alloc: Global, items: &[Value]) -> Result<Items<Text>, Shape>
    ensures { Gives (texts_of (items_view items.now)) result }
{
    let mut all = Vec::new(alloc);
    for (index, item) in items.iter().enumerate() {
        match text_of(alloc, item) {
            Ok(text) => all.push(text)?,
            Err(why) => return Err(under_item(alloc, index, why)),
        }
    }
    Ok(Items::new(all))
}

/// The ids that are confirmed.
#[tactic(auto, unfolding(crate::specs::Commands::confirmed_in))]
fn confirmed_in(alloc: Global, line: &Value) -> Result<Items<Text>, Shape>
    ensures { Gives (confirmed_in (view line.now)) result }
{
    let Some(confirmed) = optional(line, "confirmed") else {
        return Ok(Items::new(Vec::new(alloc)));
    };
    let Some(items) = confirmed.as_array() else {
        return Err(field(alloc, "confirmed"));
    };
    match texts_of(alloc, items) {
        Ok(texts) => Ok(texts),
        Err(why) => Err(under(alloc, "confirmed", why)),
    }
}

#[tactic(auto, unfolding(crate::specs::Commands::edit_in))]
fn edit_in(alloc: Global, root: &Url, line: &Value) -> Result<Edit, Shape>
    requires { IsPlainFileUrl root.now }
    ensures { Gives (edit_in root.now (view line.now)) result }
{
    let label = label_in(alloc, line)?;
    let failure = member_or(alloc, line, "failure", FailureKind::Abort)?;
    let encoding = member_or(alloc, line, "encoding", Encoding::Utf16)?;
    let confirmed = confirmed_in(alloc, line)?;
    let Some(edit) = object_at(line, "edit") else {
        return Err(field(alloc, "edit"));
    };
    match workspace_edit_of(alloc, root, &confirmed, edit) {
        Ok(operations) => Ok(Edit {
            label,
            failure,
            encoding,
            operations,
        }),
        Err(why) => Err(under(alloc, "edit", why)),
    }
}

impl Member for Choice {
    ghost kind = { one_of choice_names };

    fn read(value: &Value) -> Option<Choice>
        ensures { result ≡ one_of choice_names (view value.now) }
    {
        match value.as_str()? {
            "all" => Some(Choice::All),
            "this" => Some(Choice::This),
            "cancel" => Some(Choice::Cancel),
            _ => None,
        }
    }
}

/// An undo or a redo.
#[tactic(auto, unfolding(crate::specs::Commands::move_in))]
fn move_in(
    alloc: Global,
    root: &Url,
    by: u32,
    direction: Direction,
    line: &Value,
) -> Result<Command, Shape>
    requires { IsPlainFileUrl root.now }
    ensures { Gives (move_in root.now by direction (view line.now)) result }
{
    let path = path_at(alloc, root, line, "uri")?;
    let choice = member_or(alloc, line, "choice", Choice::All)?;
    Ok(Command::Move {
        by,
        direction,
        path,
        choice,
    })
}

/// What another program made of a file.
#[tactic(auto, unfolding(crate::specs::Commands::outside_in))]
fn outside_in(alloc: Global, root: &Url, line: &Value) -> Result<Command, Shape>
    requires { IsPlainFileUrl root.now }
    ensures { Gives (outside_in root.now (view line.now)) result }
{
    let path = path_at(alloc, root, line, "uri")?;
    let content = match text_if_there(alloc, line, "text")? {
        Some(text) => Some(Items::new(Vec::from_slice(alloc, text.as_str().as_bytes())?)),
        None => None,
    };
    Ok(Command::Outside { path, content })
}

/// What a command does.
#[derive(Clone, Copy)]
pub enum Verb {
    Edit,
    Undo,
    Redo,
    Lock,
    Unlock,
    Leave,
    Outside,
    Forget,
    Look,
}

fn verb_of(verb: &Value) -> Option<Verb>
    ensures { result ≡ one_of verb_names (view verb.now) }
{
    match verb.as_str()? {
        "edit" => Some(Verb::Edit),
        "undo" => Some(Verb::Undo),
        "redo" => Some(Verb::Redo),
        "lock" => Some(Verb::Lock),
        "unlock" => Some(Verb::Unlock),
        "leave" => Some(Verb::Leave),
        "outside" => Some(Verb::Outside),
        "forget" => Some(Verb::Forget),
        "look" => Some(Verb::Look),
        _ => None,
    }
}

fn verb_in(line: &Value) -> Option<Verb>
    ensures { result ≡ option_and_then (one_of verb_names) (optional (codes "do") (view line.now)) }
{
    verb_of(optional(line, "do")?)
}

// A participant.
impl Member for u32 {
    ghost kind = { a_whole_up_to 4294967295 };

    fn read(value: &Value) -> Option<u32>
        ensures { result ≡ a_whole_up_to 4294967295 (view value.now) }
    {
        match value.as_u64() {
            Some(by) if by <= 4_294_967_295 => Some(by as u32),
            _ => None,
        }
    }
}

/// The command, by what it does.
#[tactic(auto, unfolding(crate::specs::Commands::command_by))]
fn command_by(
    alloc: Global,
    root: &Url,
    verb: Verb,
    by: u32,
    line: &Value,
) -> Result<Command, Shape>
    requires { IsPlainFileUrl root.now }
    ensures { Gives (command_by verb root.now by (view line.now)) result }
{
    match verb {
        Verb::Edit => Ok(Command::Edit {
            by,
            edit: edit_in(alloc, root, line)?,
        }),
        Verb::Undo => move_in(alloc, root, by, Direction::Back, line),
        Verb::Redo => move_in(alloc, root, by, Direction::Forward, line),
        Verb::Lock => Ok(Command::Lock {
            by,
            files: paths_in(alloc, root, line)?,
        }),
        Verb::Unlock => Ok(Command::Unlock {
            by,
            files: paths_in(alloc, root, line)?,
        }),
        Verb::Leave => Ok(Command::Leave { by }),
        Verb::Outside => outside_in(alloc, root, line),
        Verb::Forget => Ok(Command::Forget {
            path: path_at(alloc, root, line, "uri")?,
        }),
        Verb::Look => Ok(Command::Look {
            path: path_at(alloc, root, line, "uri")?,
        }),
    }
}

#[tactic(auto, unfolding(crate::specs::Commands::command_of))]
fn command_of(alloc: Global, root: &Url, line: &Value) -> Result<Command, Shape>
    requires { IsPlainFileUrl root.now }
    ensures { Gives (command_of root.now (view line.now)) result }
{
    if !line.is_object() {
        return Err(wrong(alloc));
    }
    let by = member_or(alloc, line, "by", 0)?;
    let Some(verb) = verb_in(line) else {
        return Err(field(alloc, "do"));
    };
    command_by(alloc, root, verb, by, line)
}

fn parse(alloc: Global, line: &[u8]) -> Result<Value, Shape>
    ensures ok { IfOk result (λ value. reading line.now ≡ Some (view value)) }
    ensures refused { IfErr result (λ why. (why ≡ Shape.Memory)
        ⊎ ((why ≡ Shape.NotJson) × (reading line.now ≡ None))) }
{
    match Value::from_slice(alloc, line) {
        Ok(value) => Ok(value),
        Err(error) if error.is_memory() => Err(Shape::Memory),
        Err(_) => Err(Shape::NotJson),
    }
}

/// The command that the line is: one JSON value, an object. `by` is the participant that gives it (0 where it is
/// missing), `do` says what it does, and the other members are checked in the order of the language. URIs are read below
/// the root. Members that the language doesn't name are ignored; of two members of one name the one that `serde_json`
/// keeps counts.
pub fn read_command(alloc: Global, root: &Url, line: &[u8]) -> Result<Command, Shape>
    requires root { IsPlainFileUrl root.now }
    ensures read { IfOk result (λ command. command_in root.now line.now ≡ Ok command) }
    ensures refused { IfErr result (λ why. (why ≡ Shape.Memory) ⊎ (command_in root.now line.now ≡ Err why)) }
    ensures cause { IfErr result HasUriCause }
{
    let command = parse(alloc, line)?;
    command_of(alloc, root, &command)
}
