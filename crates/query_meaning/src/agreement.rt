//! Which tests are without a clash of kinds.
ghost use Rattle.std.specs.Prelude.{◌≡◌};
ghost use Rattle.query_meaning.specs.Agreement.{agrees, pick_agrees, stands, stands_for, is_equality, relates, is_related, is_ordered, is_subnet, may_have};

use crate::expr::{Literal, Pick, Rel, Test};
use crate::relations::goes_with;
use vast_value::Elem;

/// Whether a test is without a clash: its relation and literal stand in a row of the table of relations, and the kind
/// of its pick, if it has one, is among the row's cells.
pub fn agrees(test: &Test) -> bool
    ensures { result ≡ agrees test.now }
{
    match &test.pick {
        Pick::OfKind(elem) => stands_for(test.rel, &test.literal, *elem),
        Pick::Named(_) => stands(test.rel, &test.literal),
        Pick::TypeName => stands_for(test.rel, &test.literal, Elem::Text),
        Pick::EventTime => stands_for(test.rel, &test.literal, Elem::Time),
    }
}

fn stands(rel: Rel, literal: &Literal) -> bool
    ensures { result ≡ stands rel literal.now }
{
    match literal {
        Literal::Nil => is_equality(rel),
        Literal::Of(value) => is_related(rel, value.elem()),
    }
}

fn stands_for(rel: Rel, literal: &Literal, elem: Elem) -> bool
    ensures { result ≡ stands_for rel literal.now elem }
{
    match literal {
        Literal::Nil => is_equality(rel),
        Literal::Of(value) => relates(rel, value.elem(), elem),
    }
}

fn is_equality(rel: Rel) -> bool
    ensures { result ≡ is_equality rel }
{
    matches!(rel, Rel::Eq | Rel::Ne)
}

// Whether the table has the relation and a literal of the kind for single cells of kind `elem`.
fn relates(rel: Rel, literal: Elem, elem: Elem) -> bool
    ensures { result ≡ relates rel literal elem }
{
    match rel {
        Rel::Within => is_subnet(literal) && (is_subnet(elem) || elem.is(Elem::Addr)),
        Rel::Contains => may_have(literal, elem),
        _ => is_related(rel, literal) && goes_with(literal, elem),
    }
}

// Whether the table has the relation and a literal of the kind at all.
fn is_related(rel: Rel, literal: Elem) -> bool
    ensures { result ≡ is_related rel literal }
{
    match rel {
        Rel::Eq | Rel::Ne | Rel::Contains => true,
        Rel::Lt | Rel::Le | Rel::Gt | Rel::Ge => is_ordered(literal),
        Rel::Within => is_subnet(literal),
    }
}

fn may_have(literal: Elem, elem: Elem) -> bool
    ensures { result ≡ may_have literal elem }
{
    match literal {
        Elem::Text => goes_with(Elem::Text, elem),
        Elem::Name => goes_with(Elem::Name, elem),
        Elem::Addr | Elem::Subnet => is_subnet(elem),
        _ => false,
    }
}

fn is_ordered(elem: Elem) -> bool
    ensures { result ≡ is_ordered elem }
{
    matches!(
        elem,
        Elem::Count | Elem::Int | Elem::Time | Elem::Span | Elem::Port
    )
}

fn is_subnet(elem: Elem) -> bool
    ensures { result ≡ is_subnet elem }
{
    elem.is(Elem::Subnet)
}
