// Tests of the history: that calls succeed where there is memory, which no clause can say, and worked cases.
#![tactic(auto)]

#[cfg(test)]
mod asked;
#[cfg(test)]
mod given;
#[cfg(test)]
mod moves;
#[cfg(test)]
mod rows;
#[cfg(test)]
mod said;
#[cfg(test)]
mod told;
