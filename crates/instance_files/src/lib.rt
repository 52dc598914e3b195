//! Instance files: the OP, TOP and TOPTW profiles with decimals, scales, windows and service.
//!
//! It stands on `site_model`, whose `Instance` it makes, and on `fixed_num` for the numbers. The definition of what a file
//! says cuts the bytes into lists of lines and fields and then applies the rules of a profile; the reader goes through the
//! bytes once and keeps the places alone. `read_instance` answers exactly the definition's instance or its first refusal,
//! with the line and the cause, and `laws_of_files` says that each instance of the definition keeps every limit.
#![tactic(auto)]

mod field;
mod fields;
mod file;
mod lines;
mod op;
mod table;
mod top;
mod toptw;
mod values;

pub use field::{Field, next_field};
pub use file::{Format, default_scale, laws_of_files, read_instance};
pub use table::FileFail;
pub use values::{FileCause, read_coordinate, read_count, read_value};

#[cfg(test)]
mod tests;
