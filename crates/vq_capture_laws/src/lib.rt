//! Laws over captures: what their order is worth, and that their verdict can be computed from the definitions. Worked
//! captures stand in `proofs/`, evaluated by the prover.
#![tactic(auto)]

pub mod laws;
