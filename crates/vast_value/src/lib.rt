//! Typed values, cells, rows and layouts: the types that every other crate speaks in.
//!
//! Contracts see a [`Bytes`] as a list of bytes, a [`Row`] as a list of cells and a [`Cells`] as a list of optional
//! values, whatever they keep in memory.
#![tactic(auto)]

mod bytes;
mod cell;
mod column;
mod fit;
mod kept_columns;
mod kind;
mod layout;
mod net;
mod ranges;
mod row;
mod sequence;
mod transport;
mod value;
mod view;

pub use bytes::Bytes;
pub use cell::{Cell, Cells};
pub use column::Column;
pub use fit::{MOST_PARTS, fits};
pub use kind::{Elem, Kind};
pub use layout::{BadLayout, Columns, Layout, MOST_COLUMNS, name_fault};
pub use net::Net;
pub use ranges::{ranged_bytes, ranged_cell};
pub use row::Row;
pub use sequence::Seq;
pub use transport::Transport;
pub use value::Value;
pub use view::{PlainNumber, RowView, SeenCell};

#[cfg(test)]
mod tests {
    use super::*;
    use std::alloc::{AllocError, Global};
    use std::test::Fail;

    fn one_column(alloc: Global) -> Result<Columns, AllocError> {
        let name = Bytes::copy(alloc, b"n")?;
        let mut columns = Columns::new(alloc);
        columns.push(Column {
            name,
            kind: Kind::SetOf(Elem::Text),
        })?;
        Ok(columns)
    }

    fn one_row(alloc: Global) -> Result<Row, AllocError> {
        let mut cells = Cells::with_capacity(alloc, 2)?;
        cells.push(None)?;
        cells.push(Some(Value::Text(Bytes::copy(alloc, b"a")?)))?;
        let mut row = Row::new(alloc);
        row.push(Cell::Many(cells))?;
        Ok(row)
    }

    #[test]
    fn a_text_grows_past_its_place(rt: HostRuntime) -> Result<(), Fail> {
        let mut text = Bytes::copy(rt.alloc(), b"uid")?;
        text.push(b'0')?;
        text.append(b"123456789012345678901234567890")?;
        let mut copy = text.duplicate(rt.alloc())?;
        assert_eq!(rt;
            copy.as_slice(),
            b"uid0123456789012345678901234567890".as_slice()
        );
        copy.truncate(3);
        assert_eq!(rt; copy.as_slice(), b"uid".as_slice());
        assert_eq!(rt; Bytes::with_capacity(rt.alloc(), 64)?.as_slice().len(), 0);
        Ok(())
    }

    #[test]
    fn a_row_and_its_copy_fit_the_layouts_copy(rt: HostRuntime) -> Result<(), Fail> {
        let path = Bytes::copy(rt.alloc(), b"p")?;
        let Ok(layout) = Layout::new(path, one_column(rt.alloc())?) else {
            return Err("no layout".into());
        };
        let row = one_row(rt.alloc())?.duplicate(rt.alloc())?;
        assert!(rt; fits(&layout.duplicate(rt.alloc())?, &row));
        let copy = layout.share(rt.alloc())?.duplicate(rt.alloc())?;
        assert!(rt; fits(&copy.share(rt.alloc())?, &row));
        Ok(())
    }
}
