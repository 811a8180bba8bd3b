// The links: the table's operations under the Rust's names. `x` has what `x.rs` has, `c` what `c.rs` has.
// Table and n are passed side by side: tried as a struct's fields, but behind its `&mut` field no word is known after a
// call, and the proofs didn't close.
#![tactic(auto)]

pub mod c;
pub mod x;
