//! Units of cuts: the operations of a cut's members, as the body of one instruction, and what they compute.
#![tactic(auto)]

pub use cuts::unit_of;
pub use laws::units_have_values;
pub use operations::{Arg, UnitOp};
pub use table::UnitTable;
pub use unit_use::UnitUse;
pub use units::Unit;
pub use uses::encode_use;
pub use values::apply;

mod cuts;
mod laws;
mod operations;
mod table;
mod unit_use;
mod units;
mod uses;
mod values;
