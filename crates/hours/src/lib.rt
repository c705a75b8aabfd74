// Over the hours of a month, from a lent part with series of hourly powers: number 9, k4's sums, and the
// control average. Part, days and control days are parameters throughout, as the clauses of `hour_figures` and
// `net_average_to_tenth` name them.
#![tactic(auto)]

mod control;
mod figures;
mod k4;
mod order;
mod series;

pub use control::net_average_to_tenth;
pub use figures::{HourFigures, hour_figures};
pub use k4::K4;
