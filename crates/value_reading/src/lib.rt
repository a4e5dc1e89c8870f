//! What the texts of values and cells read as, by the spellings of Zeek's logs.
//!
//! The spellings are a profile of this project, after the form of Zeek's ASCII logs; addresses are spelled by RFC 4291.
#![tactic(auto)]

mod addresses;
mod dotted;
mod end;
mod escapes;
mod groups;
mod marks;
mod numbers;
mod plain;
mod ports;
mod reading;

pub use addresses::{address_of, subnet_of};
pub use end::CellEnd;
pub use escapes::escaped_byte;
pub use marks::Marks;
pub use numbers::{SECOND, few_digits, fraction_of, number_up_to, span_of, with_sign};
pub use plain::push_cell;
pub use ports::{marked_port_of, port_of};
pub use reading::{read_cell, read_value};

#[cfg(test)]
mod tests;
