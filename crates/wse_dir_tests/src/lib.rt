// Tests of the disk over real folders, below the system's folder for files that don't stay.
#![tactic(auto)]

#[cfg(test)]
mod areas;
#[cfg(test)]
mod files;
#[cfg(test)]
mod lasting;
#[cfg(test)]
mod script;
#[cfg(test)]
mod strays;
