// Document 01 as definitions, in specs/: the state (State, Create), one table's pages and orders (Storage), objects (Objects), the book (Book),
// lookups (Lookup), the requests (Request, Decision, Transfer, Step), lists and answers as words (Words), "well formed" (WellFormed).
// Proved of them, in proofs/: Created, Refusals, Lists; P1 to P12 and the corner cases in tables: Cases, WordCases. Lemmas for that and for
// the crates above: Tests, Sums, Decided. No code stands here.

#![tactic(auto)]
