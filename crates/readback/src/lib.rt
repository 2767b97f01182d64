// What is written decodes to what was meant, and the reader meets it. It has no code: `specs/` says what is promised, `proofs/` has the theorems.
#![tactic(auto)]
