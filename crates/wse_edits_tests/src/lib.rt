// Tests of positions, splices and text edits.
#![tactic(auto)]

#[cfg(test)]
mod edits;
#[cfg(test)]
mod places;
#[cfg(test)]
mod splices;
#[cfg(test)]
mod words;
