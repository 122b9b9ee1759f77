//! What no contract states of words, frequencies, workloads and the table:
//! values that are known from outside. This crate has only tests.
#![tactic(auto)]

#[cfg(test)]
mod board;
#[cfg(test)]
mod boards;
#[cfg(test)]
mod calls;
#[cfg(test)]
mod pairs;
#[cfg(test)]
mod policy;
#[cfg(test)]
mod readers;
#[cfg(test)]
mod same;
#[cfg(test)]
mod table;
#[cfg(test)]
mod words;
