// What the words of a table show: see specs/. There is no code here.
#![tactic(auto)]
