// Laws over the lives of a history: that no undo destroys work which its element didn't make.
#![tactic(auto)]

pub mod laws;
