// Laws of the definitions that several crates cite: see specs/. There is no code here.
#![tactic(auto)]
