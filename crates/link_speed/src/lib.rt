//! The calls on messages as a program in C can time them. It is for measuring alone.
#![tactic(auto)]

pub mod export;
