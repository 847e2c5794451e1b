//! Scripts explained: tables, pictures, and the reasons of bad lines.
#![tactic(auto)]

#[cfg(test)]
mod pictures;
#[cfg(test)]
mod program;
#[cfg(test)]
mod reasons;
#[cfg(test)]
mod rows;
#[cfg(test)]
mod tables;
