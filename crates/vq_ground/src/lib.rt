//! Small definitions and lemmas that speak of no type of this repository: truth values, options, lists and numbers.
#![tactic(auto)]
