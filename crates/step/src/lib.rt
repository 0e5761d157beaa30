// The relay rules as functions: the twelve events on one post and its neighbour, by value.
// What each function must be stands in the specs/ of `relay`, beside the sentence of the paper that it comes from.

#![tactic(auto)]

pub mod clock;
pub mod events;
pub mod gate;
pub mod kinds;
