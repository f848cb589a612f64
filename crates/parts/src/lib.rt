// A part of some bytes: what stands in it, and what putting bytes over it does (specs/ and proofs/); and how many bytes a
// block has.
#![tactic(auto)]

// The bytes of a block.
pub const BLOCK: usize = 1024;
