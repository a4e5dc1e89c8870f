//! Layouts, and which of their cells want a look.
ghost use Rattle.std.specs.Prelude.{◌≡◌, ◌++◌, IfOk, OnOk, if◌then◌else◌};
ghost use Rattle.value_text.specs.Reading.{is_text};
ghost use Rattle.zeek_log.specs.Looks.{form_of, is_of_texts, looks_from};

use std::alloc::{AllocError, Global};
use std::marker::Model;
use vast_value::{Column, Elem, Kind, Layout, Seq};

/// How the bytes of a cell are looked at.
#[derive(Clone, Copy, Debug, PartialEq, Eq)]
pub enum Form {
    /// A count or an int.
    Number,
    Port,
    Address,
    /// A time or an interval.
    Seconds,
    Truth,
    /// A subnet, or a container of others than texts: only an unset one is seen to be well spelled.
    Other,
}

/// The form of a kind's cells.
fn form_of(kind: Kind) -> Form
    ensures { result ≡ form_of kind }
{
    match kind {
        Kind::One(Elem::Count | Elem::Int) => Form::Number,
        Kind::One(Elem::Port) => Form::Port,
        Kind::One(Elem::Addr) => Form::Address,
        Kind::One(Elem::Time | Elem::Span) => Form::Seconds,
        Kind::One(Elem::Bool) => Form::Truth,
        _ => Form::Other,
    }
}

/// A column, counted from 0, whose cells are well spelled only where their bytes are.
#[derive(Clone, Copy, Debug, PartialEq, Eq, Drop)]
pub struct Look {
    pub column: usize,
    pub form: Form,
}

/// A layout with the columns whose cells want a look, which are all but those of texts. Contracts see the layout alone.
#[derive(Debug, Drop)]
pub struct LookedLayout {
    layout: Layout,
    looks: Seq<Look>,
}

impl Model for LookedLayout {
    ghost use Rattle.std.specs.Prelude.{◌≡◌};
    ghost use Rattle.vast_value.specs.declared.layout.Layout.{Layout};
    ghost use Rattle.zeek_log.specs.Looks.{looks_from};

    ghost Value = { Layout };

    ghost view = { λ looked. looked.layout };

    ghost invariant = { λ looked. looked.looks ≡ looks_from 0 looked.layout.columns };
}

impl LookedLayout {
    /// A layout with its looks.
    pub fn new(alloc: Global, layout: Layout) -> Result<Self, AllocError>
        ensures { IfOk result (λ looked. looked ≡ layout) }
    {
        let looks = looks_of(alloc, layout.columns())?;
        Ok(LookedLayout { layout, looks })
    }

    /// The layout.
    pub fn layout(&self) -> &Layout
        ensures { result.now ≡ self.now }
    {
        &self.layout
    }

    /// The columns whose cells want a look, in order.
    pub fn looks(&self) -> &[Look]
        ensures { result.now ≡ looks_from 0 self.now.columns }
    {
        self.looks.as_slice()
    }
}

fn looks_of(alloc: Global, columns: &[Column]) -> Result<Seq<Look>, AllocError>
    ensures { IfOk result (λ looks. looks ≡ looks_from 0 columns.now) }
{
    let mut looks = Seq::with_capacity(alloc, columns.len())?;
    for (at, column) in columns.iter().enumerate() {
        if !is_of_texts(column.kind) {
            looks.push(Look {
                column: at,
                form: form_of(column.kind),
            })?;
        }
    }
    Ok(looks)
}

/// Whether cells of a kind are texts or containers of texts, which are well spelled whatever they are.
fn is_of_texts(kind: Kind) -> bool
    ensures { result ≡ is_of_texts kind }
{
    match kind {
        Kind::One(elem) => is_text(elem),
        Kind::SetOf(elem) => is_text(elem),
        Kind::VecOf(elem) => is_text(elem),
    }
}

fn is_text(elem: Elem) -> bool
    ensures { result ≡ is_text elem }
{
    matches!(elem, Elem::Text | Elem::Name)
}
