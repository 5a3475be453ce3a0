// Tests of a journal's pieces: the worked journal, whole, cut and changed.
#![tactic(auto)]

#[cfg(test)]
mod area;
#[cfg(test)]
mod faults;
#[cfg(test)]
mod journal;
#[cfg(test)]
mod plain;
#[cfg(test)]
mod rows;
#[cfg(test)]
mod table;
