//! Worked examples of the definitions, evaluated by the prover: see `proofs/`. A change to a definition
//! that changes what it says of one of them is refused.
#![tactic(auto)]
