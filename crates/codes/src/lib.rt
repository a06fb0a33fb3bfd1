// What is proved of the encoding of expressions (specs/Encoding.antt of crate reach): an expression is its bytes, each body of an accepted file stands where
// its head tells, and the place behind an expression is found by passing over it. There is no code in this crate.

#![tactic(auto)]
