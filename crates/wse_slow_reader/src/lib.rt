// A store's image read slowly: by whole lists, so that the format stands on a page.
#![tactic(auto)]

mod draft;
mod finish;
mod first;
mod given;
mod header;
mod image;
mod left;
mod next;
mod numbers;
mod piece;
mod read;
mod record;
mod replay;
mod split;
mod state;

pub use image::Image;
pub use read::{SlowlyRead, read_slowly};
pub use state::PlainState;
