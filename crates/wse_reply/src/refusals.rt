// Why a line is refused, as JSON.
ghost use Rattle.std.specs.Prelude.{◌≡◌, IfOk};
ghost use Rattle.serde_json.specs.View.{view};
ghost use Rattle.wse_reply.specs.Refusals.{refused_data, field_data, uri_data, annotation_data, too_long_data, shape_data};

use serde_json::{Value, json};
use std::alloc::Global;
use wse_json::Shape;
use wse_path::Memory;
use wse_uri::UriRefused;

/// A refusal that tells nothing beside its cause.
pub fn refused_value(alloc: Global, n: u64, why: &str) -> Result<Value, Memory>
    ensures { IfOk result (λ value. view value ≡ refused_data n why.now) }
{
    let value = json!(in alloc; {"n": n, "refused": why})?;
    Ok(value)
}

fn field_value(alloc: Global, n: u64, pointer: &str) -> Result<Value, Memory>
    ensures { IfOk result (λ value. view value ≡ field_data n pointer.now) }
{
    let value = json!(in alloc; {"at": pointer, "n": n, "refused": "field"})?;
    Ok(value)
}

fn uri_value(alloc: Global, n: u64, pointer: &str, why: UriRefused) -> Result<Value, Memory>
    ensures { IfOk result (λ value. view value ≡ uri_data n pointer.now why) }
{
    let why = format!(in alloc; "{why}")?;
    let value = json!(in alloc; {"at": pointer, "n": n, "refused": "uri", "why": why})?;
    Ok(value)
}

fn annotation_value(alloc: Global, n: u64, id: &str) -> Result<Value, Memory>
    ensures { IfOk result (λ value. view value ≡ annotation_data n id.now) }
{
    let value = json!(in alloc; {"id": id, "n": n, "refused": "annotation"})?;
    Ok(value)
}

/// The line has too many bytes.
pub fn too_long_value(alloc: Global, n: u64, bytes: u64) -> Result<Value, Memory>
    ensures { IfOk result (λ value. view value ≡ too_long_data n bytes) }
{
    let value = json!(in alloc; {"bytes": bytes, "n": n, "refused": "too long"})?;
    Ok(value)
}

/// The line is no command.
pub fn shape_value(alloc: Global, n: u64, shape: &Shape) -> Result<Value, Memory>
    ensures { IfOk result (λ value. view value ≡ shape_data n shape.now) }
{
    match shape {
        Shape::NotJson => refused_value(alloc, n, "not JSON"),
        Shape::Field { pointer } => field_value(alloc, n, pointer.as_str()),
        Shape::Uri { pointer, why } => uri_value(alloc, n, pointer.as_str(), *why),
        Shape::Annotation { id } => annotation_value(alloc, n, id.as_str()),
        Shape::Memory => refused_value(alloc, n, "out of memory"),
    }
}
