// What a store holds, as lines of JSON.
#![tactic(auto)]

mod elements;
mod files;
mod line;
mod object;
mod show;

pub use show::show_text;
