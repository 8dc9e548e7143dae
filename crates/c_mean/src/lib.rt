//! The meaning of C programs: what a behaviour is (`specs/Behaviour.antt`), and on which inputs a program promises
//! something.
#![tactic(auto)]
