// What the words ask for.
ghost use Rattle.std.specs.Prelude.{◌≡◌, ℕ, List, ◌∷◌, [], IfOk, IfSome, is_some, option_map};
ghost use Rattle.wse_uri.specs.FileUrl.{IsPlainFileUrl};
ghost use Rattle.wse_words.specs.Words.{texts_of, are_places, root_of, run_in, places_in, asked_by, Asked, Init, Run, Show};
ghost use Rattle.wse_words.specs.Read.{asked_of, HasPlainRoot};

use crate::behind_root::read_options;
use crate::options::Options;
use crate::places::are_places;
use std::alloc::Global;
use url::Url;
use wse_path::Memory;
use wse_uri::{RootRefused, root_of};

/// TREE and STORE, as they are spelled.
#[derive(Clone, Copy)]
pub struct Places<'a> {
    pub tree: &'a str,
    pub store: &'a str,
}

/// What the words ask for.
#[derive(Drop)]
pub enum Words<'a> {
    /// `init TREE STORE`
    Init(Places<'a>),
    /// `run TREE STORE ROOT`, then `--adopt` and `--max-input N`
    Run {
        places: Places<'a>,
        root: Url,
        options: Options,
    },
    /// `show TREE STORE`
    Show(Places<'a>),
}

/// TREE and STORE, where they may name the two folders.
fn both_places<'a>(tree: &'a str, store: &'a str) -> Option<Places<'a>>
    ensures found { is_some result ≡ are_places tree.now store.now }
    ensures tree { IfSome result (λ places. places.tree.now ≡ tree.now) }
    ensures store { IfSome result (λ places. places.store.now ≡ store.now) }
{
    if are_places(tree, store) {
        Some(Places { tree, store })
    } else {
        None
    }
}

/// TREE and STORE, and nothing else.
fn read_places(words: &[String]) -> Option<Places<'_>>
    ensures { (asked : List ℕ → List ℕ → Asked) → option_map (λ places. asked places.tree.now places.store.now) result ≡ places_in asked (texts_of words.now) }
{
    match words {
        [tree, store] => both_places(tree.as_str(), store.as_str()),
        _ => None,
    }
}

/// What is behind `init`.
fn read_init(words: &[String]) -> Option<Words<'_>>
    ensures { option_map asked_of result ≡ places_in Init (texts_of words.now) }
{
    match read_places(words) {
        Some(places) => Some(Words::Init(places)),
        None => None,
    }
}

/// What is behind `show`.
fn read_show(words: &[String]) -> Option<Words<'_>>
    ensures { option_map asked_of result ≡ places_in Show (texts_of words.now) }
{
    match read_places(words) {
        Some(places) => Some(Words::Show(places)),
        None => None,
    }
}

/// The URL that ROOT is, or None where it is no root.
fn read_root(alloc: Global, text: &str) -> Result<Option<Url>, Memory>
    ensures root { IfOk result (λ root. root ≡ root_of text.now) }
    ensures plain { IfOk result (λ root. IfSome root IsPlainFileUrl) }
{
    match root_of(alloc, text) {
        Ok(root) => Ok(Some(root)),
        Err(RootRefused::NotARoot) => Ok(None),
        Err(RootRefused::Memory) => Err(Memory),
    }
}

/// A run over the root that ROOT is.
fn with_root<'a>(
    alloc: Global,
    places: Places<'a>,
    root: &str,
    options: Options,
) -> Result<Option<Words<'a>>, Memory>
    ensures asked { IfOk result (λ run. option_map asked_of run ≡ option_map (λ root. Run places.entry.tree.now places.entry.store.now root options.adopt options.max_input) (root_of root.now)) }
    ensures plain { IfOk result (λ run. IfSome run HasPlainRoot) }
{
    match read_root(alloc, root)? {
        Some(root) => Ok(Some(Words::Run {
            places,
            root,
            options,
        })),
        None => Ok(None),
    }
}

/// What is behind `run`.
fn read_run(alloc: Global, words: &[String]) -> Result<Option<Words<'_>>, Memory>
    ensures asked { IfOk result (λ run. option_map asked_of run ≡ run_in (texts_of words.now)) }
    ensures plain { IfOk result (λ run. IfSome run HasPlainRoot) }
{
    let [tree, store, root, more @ ..] = words else {
        return Ok(None);
    };
    let Some(places) = both_places(tree.as_str(), store.as_str()) else {
        return Ok(None);
    };
    let Some(options) = read_options(more) else {
        return Ok(None);
    };
    with_root(alloc, places, root.as_str(), options)
}

/// What the words behind the program's name ask for, or None where they aren't understood. This is this project's own rule.
pub fn read_words(alloc: Global, words: &[String]) -> Result<Option<Words<'_>>, Memory>
    ensures asked { IfOk result (λ read. option_map asked_of read ≡ asked_by (texts_of words.now)) }
    ensures plain { IfOk result (λ read. IfSome read HasPlainRoot) }
{
    let [command, more @ ..] = words else {
        return Ok(None);
    };
    let command = command.as_str();
    if command == "init" {
        Ok(read_init(more))
    } else if command == "run" {
        read_run(alloc, more)
    } else if command == "show" {
        Ok(read_show(more))
    } else {
        Ok(None)
    }
}
