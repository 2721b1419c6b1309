// A stored case of the oracle: its words, its numbers and its bytes, and the comparison of results with them. What no case
// passes is cut, so that no function here or above asks more of a case than its size.
#![tactic(auto)]

pub mod buffers;
pub mod bytes;
pub mod copies;
pub mod words;
