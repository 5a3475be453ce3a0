// Tests of making stores, of reading their journals and of opening them: over a disk in memory, byte by byte.
#![tactic(auto)]

#[cfg(test)]
mod damaged;
#[cfg(test)]
mod init;
#[cfg(test)]
mod opening;
#[cfg(test)]
mod reading;
#[cfg(test)]
mod store;
