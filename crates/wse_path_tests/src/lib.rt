// Tests of paths, trees, versions and locks: that calls succeed where there is memory, which no clause can say, and what
// they answer then.
#![tactic(auto)]

#[cfg(test)]
mod copies;
#[cfg(test)]
mod equal;
#[cfg(test)]
mod limits;
#[cfg(test)]
mod locks;
#[cfg(test)]
mod make;
#[cfg(test)]
mod many;
#[cfg(test)]
mod paths;
#[cfg(test)]
mod texts;
#[cfg(test)]
mod trees;
#[cfg(test)]
mod versions;
