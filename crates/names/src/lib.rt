// Names in the entries of a list: 02, Slip 4. There is no code in this crate: it is definitions (specs/) and what is proved of them (proofs/). Filling says how
// what is open is filled, Spelling which bytes a value spells, and NameList what the program `namelist` prints. Rests on crates reach and lists.

#![tactic(auto)]
