// Tests of the stacks: that calls succeed where there is memory, which no clause can say, and worked cases.
#![tactic(auto)]

#[cfg(test)]
mod after;
#[cfg(test)]
mod dice;
#[cfg(test)]
mod draw;
#[cfg(test)]
mod effects;
#[cfg(test)]
mod given;
#[cfg(test)]
mod heavy;
#[cfg(test)]
mod lines;
#[cfg(test)]
mod random;
#[cfg(test)]
mod row;
#[cfg(test)]
mod rows;
#[cfg(test)]
mod rules;
#[cfg(test)]
mod same;
#[cfg(test)]
mod sets;
#[cfg(test)]
mod words;
#[cfg(test)]
mod world;
