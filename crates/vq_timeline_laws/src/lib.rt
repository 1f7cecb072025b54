//! A shelf: the lists of a timeline's points beside what the pass knows that makes their steps on the
//! board. The crate has what is true of both, what each call leaves of them, and the lemmas that the
//! calls keep it so.
#![tactic(auto)]

pub mod laws;
