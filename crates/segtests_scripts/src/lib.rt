//! Tests of scripts and loads: devices that fail, and passes at the same time.
#![tactic(auto)]

#[cfg(test)]
mod load_alone;
#[cfg(test)]
mod load_crowds;
#[cfg(test)]
mod load_gates;
#[cfg(test)]
mod load_runs;
#[cfg(test)]
mod same;
#[cfg(test)]
mod script_hostile;
#[cfg(test)]
mod script_order;
#[cfg(test)]
mod script_runs;
#[cfg(test)]
mod script_standard;
