// Tests of serving, over a server that echoes.
#![tactic(auto)]

#[cfg(test)]
mod client;
#[cfg(test)]
mod echo;
#[cfg(test)]
mod streams;
