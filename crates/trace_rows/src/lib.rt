//! Small traces by computation: what the rules of a good trace say of them. The traces and what is shown of each stand
//! in `proofs/`; there is no code.
#![tactic(auto)]
