// The library's calls in document 01's form, lent all lists of a run and the numbers P and K, the worker rows as one list of records: a step
// reads the worker's row, takes the step by value, and stores the row that is then the worker's; begin clears all rows. A call lends
// mutably what its rule writes; the other lists keep their words by their type. Each stands in a crate of its own.
#![tactic(auto)]

pub use ref_begin::begin;
pub use ref_complete::complete;
pub use ref_fetch::fetch;
pub use ref_release::release;
pub use ref_start::start;
