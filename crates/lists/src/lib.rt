// Lists that are handed in with their rule file, and what is printed: 02, Slip 2, and 01, "The program `reachlist`". There is no code in this crate: it is
// definitions (specs/) and what is proved of them (proofs/). Text says what is printed of a list, Handed which bytes are a list, and Printouts what the calls
// answer that print one. Rests on crates reach and readings.

#![tactic(auto)]
