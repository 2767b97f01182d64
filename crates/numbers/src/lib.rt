// Document 01's numbers to check, as one table. It has no code: `specs/` has the table, `proofs/` that it holds.
#![tactic(auto)]
