// Tests of the texts of replies: each row of the table of answers, as it is emitted.
#![tactic(auto)]

#[cfg(test)]
mod given;
#[cfg(test)]
mod moves;
#[cfg(test)]
mod told;
