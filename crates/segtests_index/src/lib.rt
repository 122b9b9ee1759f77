//! Tests of the index: calls of one thread, passes on threads of their own, and too little memory.
//! The tests of memory are only for `rt test`: the heap of `rt try` can't be taken whole.
#![tactic(auto)]

#[cfg(test)]
mod calls;
#[cfg(test)]
mod closing;
#[cfg(test)]
mod commands;
#[cfg(test)]
mod digits;
pub mod hoard;
#[cfg(test)]
mod holds;
#[cfg(test)]
mod memory_index;
#[cfg(test)]
mod memory_loads;
#[cfg(test)]
mod memory_plain;
#[cfg(test)]
mod memory_scripts;
#[cfg(test)]
mod memory_shards;
#[cfg(test)]
mod memory_solo;
#[cfg(test)]
mod memory_tables;
#[cfg(test)]
mod owner;
#[cfg(test)]
mod passes;
#[cfg(test)]
mod probing;
#[cfg(test)]
mod refusals;
#[cfg(test)]
mod rows;
#[cfg(test)]
mod same;
#[cfg(test)]
mod tables;
#[cfg(test)]
mod threads_counting;
#[cfg(test)]
mod threads_evicting;
#[cfg(test)]
mod threads_expiring;
#[cfg(test)]
mod threads_growing;
#[cfg(test)]
mod threads_keeping;
#[cfg(test)]
mod threads_locking;
#[cfg(test)]
mod threads_setting;
#[cfg(test)]
mod threads_standing;
#[cfg(test)]
mod work;
