// Tests of records and states as bytes: outside tables of what is read and where the rest is refused, and that calls
// succeed where there is memory, which no clause can say.
#![tactic(auto)]

#[cfg(test)]
mod made;
#[cfg(test)]
mod places;
#[cfg(test)]
mod states;
#[cfg(test)]
mod worked;
