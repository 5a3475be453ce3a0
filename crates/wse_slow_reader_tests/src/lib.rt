// Tests of the slow reader: the worked journal, damaged and unsettled, and each image of each moment of one command.
#![tactic(auto)]

#[cfg(test)]
mod command;
#[cfg(test)]
mod damaged;
#[cfg(test)]
mod moments;
#[cfg(test)]
mod store;
#[cfg(test)]
mod told;
#[cfg(test)]
mod unsettled;
