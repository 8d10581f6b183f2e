//! Tests of what is read: lines, JSON values, words of the command line, settings lines, mappings, documents, queries, search
//! bodies and the entries of a script. They stand in a crate of their own, since a crate that has tests is proved once more
//! for them.
#![tactic(auto)]

#[cfg(test)]
mod actions;
#[cfg(test)]
mod bodies;
#[cfg(test)]
mod copies;
#[cfg(test)]
mod date_histograms;
#[cfg(test)]
mod entries;
#[cfg(test)]
mod fields;
#[cfg(test)]
mod headers;
#[cfg(test)]
mod inputs;
#[cfg(test)]
mod lent;
#[cfg(test)]
mod mappings;
#[cfg(test)]
mod parts;
#[cfg(test)]
mod pipelines;
#[cfg(test)]
mod queries;
#[cfg(test)]
mod routings;
#[cfg(test)]
mod rows;
#[cfg(test)]
mod settings;
#[cfg(test)]
mod stores;
