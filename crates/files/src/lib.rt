// What is done with two line files (crate linefile says what one is): merge makes one of them, and common view reports on the tracks that are in
// both. Crates merging and viewing answer; here both are at hand together.
#![tactic(auto)]

pub use merging::merge;
pub use viewing::{Figures, common_view};
