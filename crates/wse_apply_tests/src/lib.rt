// Whole edits on small trees.
#![tactic(auto)]

#[cfg(test)]
mod agreement;
#[cfg(test)]
mod answers;
#[cfg(test)]
mod given;
#[cfg(test)]
mod told;
