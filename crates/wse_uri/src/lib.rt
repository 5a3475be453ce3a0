// Paths below a root, and the URIs that name them.
#![tactic(auto)]

mod file_url;
pub mod laws;
mod reading;
mod refused;
mod segments;
mod writing;

pub use file_url::root_of;
pub use reading::path_of;
pub use refused::{RootRefused, UriRefused};
pub use writing::uri_of;
