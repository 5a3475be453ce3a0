// Tests of the engine: its calls of the disk, one by one, and what is left where one of them fails.
#![tactic(auto)]

#[cfg(test)]
mod calls;
#[cfg(test)]
mod faults;
#[cfg(test)]
mod given;
#[cfg(test)]
mod run;
