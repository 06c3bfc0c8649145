// The measurements of a cycle as 01 speaks of them, a list, and its terms over that list. The clock keeps a row for each ID; this
// crate shows that nothing is lost by it. It has no code: `specs/` holds the rules, `proofs/` their laws.
#![tactic(auto)]
