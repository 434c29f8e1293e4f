//! Lists of devices as an operator writes and reads them: CSV with a head that names the columns.
//! docs/DEVICES.md is the page about them.
#![tactic(auto)]

mod column;
mod export;
mod fault;
mod line_values;
mod reading;
mod rows;
mod values;

pub use column::Column;
pub use export::{AppKeys, list_of};
pub use fault::{FaultyLine, LineFault, ListFault, row_text, text_of_faults};
pub use line_values::LineValues;
pub use reading::{DeviceList, ListUse, read_list};
pub use values::{amendment_of, importing_of};
