//! Laws of what a search answers, and the worked examples of its definitions, each computed by the check. No code runs, and
//! of the other crates `growth_laws` alone cites lemmas from here.
#![tactic(auto)]

pub mod laws;
