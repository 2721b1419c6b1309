// What every program that replays stored answers of the original (oracle/FORMAT.md) shares: a case's words from its bytes, the
// next case of standard input, how many there are of each kind and how many differ, and the table of these. What is read and
// written no contract can say.
#![tactic(auto)]

pub mod case;
pub mod input;
pub mod print;
pub mod run;
pub mod tally;
