// Laws over the lines of a run: that no undo in it destroys work which its element didn't make.
#![tactic(auto)]

pub mod laws;
