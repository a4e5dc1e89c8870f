//! Layouts: a path and the columns of its rows.
ghost use Rattle.std.specs.Prelude.{◌≡◌, ◌≤◌, ◌+◌, ◌^◌, [], length, MatchResult, IfOk, is_none, IsTrue};
ghost use Rattle.vast_value.specs.Layouts.{layout_fault, columns_fault, column_fault, name_fault, is_named};

use crate::bytes::Bytes;
use crate::column::Column;
use crate::kept_columns::KeptColumns;
use crate::sequence::Seq;
use std::alloc::{AllocError, Global};

/// The most columns of a layout.
pub const MOST_COLUMNS: usize = 256;

/// The columns of a layout, in order.
pub type Columns = Seq<Column>;

/// Why a path and columns are no layout. Columns count from 1.
#[derive(Clone, Copy, Debug, PartialEq, Eq)]
pub enum BadLayout {
    EmptyPath,
    NoColumns,
    /// There is a column 257.
    TooManyColumns,
    EmptyName { column: u32 },
    /// An earlier column has this name.
    SameName { column: u32 },
}

/// A path of 1 to 2^24 bytes and 1 to 256 columns, whose names are not empty and differ. Its copies may share its columns.
#[derive(Debug, Drop)]
pub struct Layout {
    path: Bytes,
    columns: KeptColumns,
    ghost short: { length path ≤ 2 ^ 24 },
    ghost valid: { IsTrue (is_none (layout_fault path columns)) },
}

impl Layout {
    /// The layout of a path and columns. Each [`BadLayout`] comes exactly where its check is the first that fails: an
    /// empty path, no columns, and then column by column that it is not the 257th, has a name, and has no earlier
    /// column's name.
    #[tactic(auto, unfolding(crate::specs::Layouts::layout_fault))]
    pub fn new(path: Bytes, columns: Columns) -> Result<Layout, BadLayout>
        requires { length path ≤ 2 ^ 24 }
        ensures made { IfOk result (λ layout. (layout.path ≡ path) × (layout.columns ≡ columns)) }
        ensures fault { MatchResult result (λ _. layout_fault path columns ≡ None) (λ fault. layout_fault path columns ≡ Some fault) }
    {
        match layout_fault(path.as_slice(), columns.as_slice()) {
            Some(fault) => Err(fault),
            None => {
                let columns = KeptColumns::own(columns);
                Ok(Layout { path, columns })
            }
        }
    }

    /// The path.
    pub fn path(&self) -> &[u8]
        ensures { result.now ≡ self.now.path }
    {
        self.path.as_slice()
    }

    /// The columns, in order.
    pub fn columns(&self) -> &[Column]
        ensures { result.now ≡ self.now.columns }
    {
        self.columns.as_slice()
    }

    /// The same layout, whose copies share its columns from here on.
    pub fn share(self, alloc: Global) -> Result<Layout, AllocError>
        ensures { IfOk result (λ shared. shared ≡ self) }
    {
        let columns = self.columns.share(alloc)?;
        let path = self.path;
        Ok(Layout { path, columns })
    }

    /// An equal copy, whose own copies share its columns. Where this layout shares its columns the copy has them too, and
    /// takes memory for its path alone.
    pub fn duplicate(&self, alloc: Global) -> Result<Layout, AllocError>
        ensures { IfOk result (λ copy. copy ≡ self.now) }
    {
        let path = self.path.duplicate(alloc)?;
        let columns = self.columns.duplicate(alloc)?;
        Ok(Layout { path, columns })
    }
}

impl Seq<Column> {
    /// An equal copy.
    pub fn duplicate(&self, alloc: Global) -> Result<Columns, AllocError>
        ensures { IfOk result (λ copy. copy ≡ self.now) }
    {
        let columns = self.as_slice();
        let mut copy = Seq::with_capacity(alloc, columns.len())?;
        for column in columns {
            copy.push(duplicate_column(alloc, column)?)?;
        }
        Ok(copy)
    }
}

fn duplicate_column(alloc: Global, column: &Column) -> Result<Column, AllocError>
    ensures { IfOk result (λ copy. copy ≡ column.now) }
{
    let name = column.name.duplicate(alloc)?;
    Ok(Column {
        name,
        kind: column.kind,
    })
}

#[tactic(auto, unfolding(crate::specs::Layouts::layout_fault))]
fn layout_fault(path: &[u8], columns: &[Column]) -> Option<BadLayout>
    ensures { result ≡ layout_fault path.now columns.now }
{
    if path.is_empty() {
        return Some(BadLayout::EmptyPath);
    }
    if columns.is_empty() {
        return Some(BadLayout::NoColumns);
    }
    columns_fault(columns)
}

fn columns_fault(columns: &[Column]) -> Option<BadLayout>
    ensures { result ≡ columns_fault 1 [] columns.now }
{
    for (at, column) in columns.iter().enumerate() {
        let fault = column_fault(at, &columns[..at], column);
        if fault.is_some() {
            return fault;
        }
    }
    None
}

fn column_fault(at: usize, before: &[Column], column: &Column) -> Option<BadLayout>
    ensures { result ≡ column_fault (at + 1) before.now column.now }
{
    let name = column.name.as_slice();
    name_fault(at, name, is_named(name, before))
}

/// What is wrong with a column's name: that `at` columns, which are more than there may be, stand before it, that it is
/// empty, or that it is taken by an earlier column.
pub fn name_fault(at: usize, name: &[u8], taken: bool) -> Option<BadLayout>
    ensures { result ≡ name_fault (at + 1) name.now taken }
{
    if at >= MOST_COLUMNS {
        return Some(BadLayout::TooManyColumns);
    }
    let column = at as u32 + 1;
    if name.is_empty() {
        return Some(BadLayout::EmptyName { column });
    }
    if taken {
        return Some(BadLayout::SameName { column });
    }
    None
}

fn is_named(name: &[u8], columns: &[Column]) -> bool
    ensures { result ≡ is_named name.now columns.now }
{
    columns.iter().any(|column| column.name.as_slice() == name)
}
