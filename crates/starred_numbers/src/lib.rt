// The twelve starred numbers of document 01, shown of the rules that the contracts cite. This crate has no code: `specs/` holds the
// list and the claim, `proofs/` its proof.
#![tactic(auto)]
