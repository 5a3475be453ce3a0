// What lines and URIs read as.
#![tactic(auto)]

#[cfg(test)]
mod commands;
#[cfg(test)]
mod shown;
#[cfg(test)]
mod uris;
