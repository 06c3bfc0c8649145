// What the proofs above need to know of signed numbers and of loops over the first places of an array. This crate has no code and
// no rules: `proofs/` holds the laws, each proved once.
#![tactic(auto)]
