//! Small programs over documents, as a user writes them, and the tables of docs/ as tests.
#![tactic(auto)]

pub mod calls;
pub mod configuration;
#[cfg(test)]
mod documents;
pub mod evaluation;
pub mod events;
pub mod filter;
#[cfg(test)]
mod first;
pub mod index;
pub mod invoice;
pub mod parts;
pub mod permission;
pub mod steps;
#[cfg(test)]
mod tables;
pub mod tags;
pub mod untrusted;
