// Two tracks over one circuit, by value: the leaves that a caller over two rows needs. specs/ has the definitions of the whole, proofs/ the theorems.

#![tactic(auto)]

pub mod circuit;
mod refusal;
mod track;

pub use refusal::Refusal;
pub use track::Track;
