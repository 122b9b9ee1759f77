//! Tests of clients: uses as a program would write them,
//! and the callers that the pages for callers show. `tools/pages` compares those pages with these files.
#![tactic(auto)]

#[cfg(test)]
mod by_turns;
#[cfg(test)]
mod cache_server;
#[cfg(test)]
mod callers;
#[cfg(test)]
mod client_caller;
#[cfg(test)]
mod closing;
#[cfg(test)]
mod copied_reads;
#[cfg(test)]
mod counting;
#[cfg(test)]
mod first_cache;
#[cfg(test)]
mod index_caller;
#[cfg(test)]
mod keeping_at_once;
#[cfg(test)]
mod limiting;
#[cfg(test)]
mod only_client;
#[cfg(test)]
mod reading_at_once;
#[cfg(test)]
mod readme_lines;
#[cfg(test)]
mod same;
#[cfg(test)]
mod session_store;
#[cfg(test)]
mod several_shards;
