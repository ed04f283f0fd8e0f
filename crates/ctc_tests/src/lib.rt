// Examples of a CTC, most as calls of a bench.
#![tactic(auto)]

#[cfg(test)]
mod bench;
#[cfg(test)]
mod counting;
#[cfg(test)]
mod requests;
