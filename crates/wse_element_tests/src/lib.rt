// Tests of elements: that calls succeed where there is memory, which no clause can say, and what they answer then.
#![tactic(auto)]

#[cfg(test)]
mod copies;
#[cfg(test)]
mod make;
#[cfg(test)]
mod parts;
#[cfg(test)]
mod splits;
#[cfg(test)]
mod weights;
