//! A worker's queries, and their registering.
ghost use Rattle.std.specs.Prelude.{◌≡◌};
ghost use Rattle.turn_book.specs.Seats.{book_id, pass_book, pass_standing};
ghost use Rattle.worker_pool.specs.Registering.{Registers, RegistersAll};

use crate::paging::QueryEnd;
use history_core::{Mode, RegisterEnd};
use query_meaning::Expr;
use shared_store::{Pass, Vast};
use std::alloc::AllocError;
use std::sync::Wait;

/// A query of a worker.
#[derive(Drop)]
pub struct Query {
    /// What it is to be registered with, with mode Both, where that is still to be done.
    pub expr: Option<Expr>,
    pub end: QueryEnd,
}

/// Registers the queries that are still to be, in order.
pub fn register_all<R: Wait>(
    rt: &R,
    vast: &Vast,
    pass: &mut Pass,
    queries: &mut [Query],
) -> Result<(), AllocError>
    requires book { pass_book pass.old ≡ book_id vast.now.book }
    ensures book { pass_book pass.new ≡ book_id vast.now.book }
    ensures registers { RegistersAll result queries.old queries.new (pass_standing pass.old) (pass_standing pass.new) }
{
    match queries.split_first_mut() {
        None => Ok(()),
        Some((first, rest)) => {
            register_one(rt, vast, pass, first)?;
            register_all(rt, vast, pass, rest)
        }
    }
}

/// Registers a query, where that is still to be done. One that is refused is told the limit, and one for which memory is
/// wanting keeps its expression.
fn register_one<R: Wait>(
    rt: &R,
    vast: &Vast,
    pass: &mut Pass,
    query: &mut Query,
) -> Result<(), AllocError>
    requires book { pass_book pass.old ≡ book_id vast.now.book }
    ensures book { pass_book pass.new ≡ book_id vast.now.book }
    ensures registers { Registers result query.old query.new (pass_standing pass.old) (pass_standing pass.new) }
{
    let Some(expr) = query.expr.take() else {
        return Ok(());
    };
    match vast.register(rt, pass, Mode::Both, expr) {
        Ok(session) => {
            query.end.session = Some(session);
            Ok(())
        }
        Err((expr, end)) => match end {
            RegisterEnd::TooMany { limit } => {
                query.end.too_many = Some(limit);
                Ok(())
            }
            RegisterEnd::Ahead { .. } => unreachable!(),
            RegisterEnd::Memory => {
                query.expr = Some(expr);
                Err(AllocError)
            }
        },
    }
}
