//! Documents that go into columns as bulk actions bring them, so that no tree of rows is kept between bytes and columns
//! (Elasticsearch Reference 8, 'Bulk API', 'Index modules').
#![tactic(auto)]

mod again;
mod drafts;
mod form;
mod loading;
mod packed;
mod slot;
mod slots;

pub use loading::Loading;
