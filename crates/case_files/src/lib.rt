// Question files and answer files, as tests/README.md lays them out.
#![tactic(auto, using(streams::proofs::Grows::grows_in_turn))]

pub mod arrays;
pub mod records;
pub mod say;
