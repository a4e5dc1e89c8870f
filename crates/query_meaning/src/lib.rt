//! Queries over events, and what they mean.
#![tactic(auto)]

mod agreement;
mod expr;
mod laws;
mod meaning;
mod picks;
mod relations;
mod resolved;
mod resolving;
mod sure;

pub use agreement::agrees;
pub use expr::{Expr, Exprs, Literal, Pick, Rel, Test};
pub use laws::{
    clash_holds_of_nothing, members_and_not, order_is_total, picks_by_column, subnets_hold,
    sure_is_match, texts_hold,
};
pub use meaning::{holds, is_of};
pub use picks::is_named;
pub use relations::{goes_with, meets, text_meets};
pub use resolved::{Resolved, ResolvedTest};
pub use resolving::resolve;
pub use sure::{bucket, maybe_cell, seconds, sure_cell, sure_holds};
