//! Laws of netlists: which have an order, that there is one, and that a netlist with an order runs in one way.
//!
//! - A netlist has an order or a loop; it has an order exactly where its nets have ranks that fall along gates. Order and loop are one.
//! - Where there is an order, each cycle has a valuation, and each start and list of inputs a run; any two agree at all nets.
//! - A run is a trace, and a trace a run.
//! - Where all nets are driven by no more drivers than there are nets, each has exactly one.
//!
//! The definitions stand in `bb_base`. All of this holds for any meaning of gates.
#![tactic(auto)]

mod order;
mod run;
mod site;

pub use order::{each_driven_once, one_loop, one_order, order_or_loop, ranks_give_orders};
pub use run::{one_valuation, runs_are_traces, runs_exist};
pub use site::{design_runs_exist, site_ranks_give_orders, site_runs_are_traces, site_runs_exist};
