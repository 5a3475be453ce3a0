// Tests of the states that write one record: over a disk in memory, call by call.
#![tactic(auto)]

#[cfg(test)]
mod calls;
#[cfg(test)]
mod faults;
#[cfg(test)]
mod images;
#[cfg(test)]
mod journal;
#[cfg(test)]
mod quiet;
#[cfg(test)]
mod run;
