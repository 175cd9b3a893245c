//! Layer 7, outside. What only a call in code can show: hosts that fail or go byte by byte,
//! solvers of other rules, calls that no program makes, and the steps of a small field.
#![tactic(auto)]

#[cfg(test)]
mod calls;
#[cfg(test)]
mod errors;
#[cfg(test)]
mod fields;
#[cfg(test)]
mod greatest;
#[cfg(test)]
mod hosts;
#[cfg(test)]
mod prefixes;
#[cfg(test)]
mod programs;
#[cfg(test)]
mod runs;
#[cfg(test)]
mod saves;
#[cfg(test)]
mod solvers;
