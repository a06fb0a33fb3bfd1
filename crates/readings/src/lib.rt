// What is proved of values read in prefix form (specs/Partial.antt and specs/Input.antt of crate reach): they are read exactly where they stand, with how deep
// they are; and bytes are a closed input under exactly its condition. There is no code in this crate. proofs/Demands.antt is the file to read first.

#![tactic(auto)]
