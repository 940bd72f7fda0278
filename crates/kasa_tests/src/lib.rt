//! Proved tests of what only a test can show: calls by themselves that no program makes, generic functions at concrete
//! types, devices in memory that fail at a numbered call, each on a worked model. The crate has tests alone.
#![tactic(auto)]

#[cfg(test)]
mod choosers;
#[cfg(test)]
mod counted;
#[cfg(test)]
mod devices;
#[cfg(test)]
mod meets;
#[cfg(test)]
mod models;
#[cfg(test)]
mod runs;
#[cfg(test)]
mod tokens;
#[cfg(test)]
mod worked;
#[cfg(test)]
mod yields;
