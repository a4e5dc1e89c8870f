//! The texts of values and cells, as Zeek's logs spell them: reading, writing, and the literals of queries.
#![tactic(auto)]

mod laws;

pub use laws::literals_read_again;
pub use query_literal::{literals_have_one_form, read_literal, read_moment};
pub use value_reading::{CellEnd, Marks, escaped_byte, push_cell, read_cell, read_value};
pub use value_writing::{first_longest_gap, write_cell, write_escaped};
