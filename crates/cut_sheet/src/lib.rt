// A cut sheet tells from the marks of a quote which periods of a yard lie inside each of its cuts.
#![tactic(auto)]

mod sheet;

pub use sheet::{Inside, periods_inside};
