//! Laws of what fits. Each function has a law as its contract, over all values of the definitions, and does nothing.
pub mod documents;
pub mod indexes;
pub mod searches;
pub mod wholes;
