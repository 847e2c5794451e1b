//! Lists of calls on the ends of channels: the worked rows, drawn ones, and calls that are refused memory.
#![tactic(auto)]

#[cfg(test)]
mod drawn_threads;
#[cfg(test)]
mod flavours;
#[cfg(test)]
mod refusals;
