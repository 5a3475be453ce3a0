// Tests of disks, sources and sinks, over their public calls.
#![tactic(auto)]

#[cfg(test)]
mod faults;
#[cfg(test)]
mod flushing;
#[cfg(test)]
mod lines;
#[cfg(test)]
mod long;
#[cfg(test)]
mod pieces;
#[cfg(test)]
mod reads;
