// Document 01's starred examples as one theorem over their list: specs/ and proofs/ hold all of this crate. The program vectors runs the others.
#![tactic(auto)]
