// The calls for C and Rust, over numbers and slices: C knows no run and no slab, so a call takes their numbers one by one. The crate `coding` says how an answer is one number, specs/Listed.antt what a lent list holds.
#![tactic(auto)]

mod blocks;
mod export;
mod files;
mod given;
mod list;
mod numbers;
mod rooms;
