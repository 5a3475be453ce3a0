// Tests of disks, over their public calls.
#![tactic(auto)]

#[cfg(test)]
mod calls;
#[cfg(test)]
mod disk;
#[cfg(test)]
mod images;
#[cfg(test)]
mod script;
#[cfg(test)]
mod silent;
