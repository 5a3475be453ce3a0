// URIs as paths below the root.
ghost use Rattle.std.specs.Prelude.{codes};
ghost use Rattle.serde_json.specs.View.{view, items_view};
ghost use Rattle.wse_uri.specs.FileUrl.{IsPlainFileUrl};
ghost use Rattle.wse_json.specs.Commands.{path_item, paths_of, paths_in};
ghost use Rattle.wse_json.specs.Operations.{path_named, path_at};
ghost use Rattle.wse_json.specs.Shapes.{Gives};

use crate::kinds::{list_at, text_at};
use crate::pointer::{field, under, under_item, wrong};
use crate::shape::Shape;
use serde_json::Value;
use std::alloc::Global;
use url::Url;
use wse_path::{Files, Items, RelPath, Text};
use wse_uri::{UriRefused, path_of};

/// The path that the URI names.
#[tactic(auto, unfolding(crate::specs::Operations::path_named))]
pub fn path_named(alloc: Global, root: &Url, uri: &str) -> Result<RelPath, Shape>
    requires { IsPlainFileUrl root.now }
    ensures { Gives (path_named root.now uri.now) result }
{
    match path_of(alloc, root, uri) {
        Ok(path) => Ok(path),
        Err(UriRefused::Memory) => Err(Shape::Memory),
        Err(why) => Err(Shape::Uri {
            pointer: Text::new(String::new(alloc)),
            why,
        }),
    }
}

/// The path that the URI in the member of this name names.
#[tactic(auto, unfolding(crate::specs::Operations::path_at))]
pub fn path_at(alloc: Global, root: &Url, object: &Value, name: &str) -> Result<RelPath, Shape>
    requires { IsPlainFileUrl root.now }
    ensures { Gives (path_at root.now name.now (view object.now)) result }
{
    let Some(uri) = text_at(object, name) else {
        return Err(field(alloc, name));
    };
    match path_named(alloc, root, uri) {
        Ok(path) => Ok(path),
        Err(why) => Err(under(alloc, name, why)),
    }
}

fn path_item(alloc: Global, root: &Url, item: &Value) -> Result<RelPath, Shape>
    requires { IsPlainFileUrl root.now }
    ensures { Gives (path_item root.now (view item.now)) result }
{
    match item.as_str() {
        Some(uri) => path_named(alloc, root, uri),
        None => Err(wrong(alloc)),
    }
}

fn paths_of(alloc: Global, root: &Url, uris: &[Value]) -> Result<Files, Shape>
    requires { IsPlainFileUrl root.now }
    ensures { Gives (paths_of root.now (items_view uris.now)) result }
{
    let mut all = Vec::new(alloc);
    for (index, uri) in uris.iter().enumerate() {
        match path_item(alloc, root, uri) {
            Ok(path) => all.push(path)?,
            Err(why) => return Err(under_item(alloc, index, why)),
        }
    }
    Ok(Items::new(all))
}

/// The paths that the URIs of a command (`uris`) name.
#[tactic(auto, unfolding(crate::specs::Commands::paths_in))]
pub fn paths_in(alloc: Global, root: &Url, line: &Value) -> Result<Files, Shape>
    requires { IsPlainFileUrl root.now }
    ensures { Gives (paths_in root.now (view line.now)) result }
{
    let Some(uris) = list_at(line, "uris") else {
        return Err(field(alloc, "uris"));
    };
    match paths_of(alloc, root, uris) {
        Ok(files) => Ok(files),
        Err(why) => Err(under(alloc, "uris", why)),
    }
}
