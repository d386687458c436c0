// The header of a month and the series of two: public calls read_header, write_header, same_series, which the crate dip passes on.
#![tactic(auto)]

mod header;
mod series;

pub use header::{Header, read_header, write_header};
pub use series::same_series;
