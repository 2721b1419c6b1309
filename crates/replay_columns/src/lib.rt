// A mesh of a stored case, by its six columns, a store of shapes, by its parts, and the columns that a call has changed.
#![tactic(auto)]

pub mod after;
pub mod columns;
pub mod store;
