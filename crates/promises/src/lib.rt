// What is promised of the whole, in one place: definitions and theorems only, in specs/ and
// proofs/. docs/DEMANDS.md leads through them.
#![tactic(auto)]
