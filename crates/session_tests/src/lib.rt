// Examples of sessions, read and listed.
#![tactic(auto)]

#[cfg(test)]
mod building;
#[cfg(test)]
mod listings;
#[cfg(test)]
mod readings;
