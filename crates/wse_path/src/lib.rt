// Names, trees and plain data, on which every other crate stands.
#![tactic(auto)]

mod change;
mod command;
mod content;
mod edit;
mod items;
mod label;
mod limits;
mod memory;
mod merge;
mod operation;
mod path;
mod path_map;
mod path_text;
mod position;
mod row;
mod text;
mod tree;
mod versions;

pub use change::{Bumps, Change, Changes, Numbered};
pub use command::{Choice, Command, Direction};
pub use content::{content_slice, copy_bytes, copy_content, is_same_content};
pub use edit::{Edit, Edits, FailureKind, Operation, Operations, What};
pub use items::{Bytes, Duplicate, Files, Items};
pub use label::Label;
pub use limits::{Hit, Limits, Which};
pub use memory::Memory;
pub use merge::Update;
pub use operation::ResourceOp;
pub use path::{PathRefused, RelPath};
pub use path_map::PathMap;
pub use path_text::TextRefused;
pub use position::{Encoding, Position, TextEdit};
pub use row::Weighed;
pub use text::Text;
pub use tree::Tree;
pub use versions::Versions;
