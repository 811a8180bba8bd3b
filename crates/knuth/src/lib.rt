// Theorems about the definitions of `rules` alone: proofs/Conditions.antt is the page to read, proofs/Theorems.antt has
// what holds more widely. There is no code here.
#![tactic(auto)]
