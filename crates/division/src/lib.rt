// Division of bit strings, and what follows from it for words that end in their own checksum. This crate has no code:
// `specs/` holds the rules for any width and any polynomial, `proofs/` their laws, each proved once over the width.
#![tactic(auto)]
