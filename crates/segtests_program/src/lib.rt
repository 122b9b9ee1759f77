//! Tests of the program: devices that fail, and a watch that looks on.
#![tactic(auto)]

#[cfg(test)]
mod cli_devices;
#[cfg(test)]
mod cli_order;
#[cfg(test)]
mod cli_progress;
#[cfg(test)]
mod cli_runs;
#[cfg(test)]
mod cli_stats;
#[cfg(test)]
mod same;
