//! Rows of a batch.

use vast_value::{Row, Seq};

/// The rows of a batch, in order.
pub type Rows = Seq<Row>;
