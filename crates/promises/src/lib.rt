// The customer's demands as statements with their proofs: specs/ and proofs/ hold all of this crate.
#![tactic(auto)]
