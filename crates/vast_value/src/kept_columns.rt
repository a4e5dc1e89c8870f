//! The columns that a layout keeps.
ghost use Rattle.std.specs.Prelude.{◌≡◌, IfOk};

use crate::column::Column;
use crate::layout::Columns;
use std::alloc::{AllocError, Global};
use std::marker::Model;
use std::sync::Arc;

/// Who has the columns: one layout, or a layout and its copies together.
#[derive(Debug, Drop)]
enum Keeping {
    Own(Columns),
    Common(Arc<Columns>),
}

/// Columns in order. Contracts see the columns alone, and not who shares them.
#[derive(Debug, Drop)]
pub(crate) struct KeptColumns {
    keeping: Keeping,
}

impl Model for KeptColumns {
    ghost use Rattle.std.specs.Prelude.{List};
    ghost use Rattle.vast_value.specs.declared.column.Column.{Column};
    ghost use Rattle.vast_value.specs.KeptColumns.{columns_kept};

    ghost Value = { List Column };

    ghost view = { λ kept. columns_kept kept.keeping };
}

impl KeptColumns {
    /// Columns that nothing shares. It takes no memory.
    pub(crate) fn own(columns: Columns) -> KeptColumns
        ensures { result ≡ columns }
    {
        KeptColumns {
            keeping: Keeping::Own(columns),
        }
    }

    /// The columns, in order.
    pub(crate) fn as_slice(&self) -> &[Column]
        ensures { result.now ≡ self.now }
    {
        match &self.keeping {
            Keeping::Own(columns) => columns.as_slice(),
            Keeping::Common(columns) => columns.as_slice(),
        }
    }

    /// The same columns, to be shared by copies.
    pub(crate) fn share(self, alloc: Global) -> Result<KeptColumns, AllocError>
        ensures { IfOk result (λ shared. shared ≡ self) }
    {
        let columns = match self.keeping {
            Keeping::Own(columns) => Arc::new(alloc, columns)?,
            Keeping::Common(columns) => columns,
        };
        Ok(KeptColumns {
            keeping: Keeping::Common(columns),
        })
    }

    /// An equal copy, whose own copies share its columns. Where these are shared it is one share more.
    pub(crate) fn duplicate(&self, alloc: Global) -> Result<KeptColumns, AllocError>
        ensures { IfOk result (λ copy. copy ≡ self.now) }
    {
        let columns = match &self.keeping {
            Keeping::Own(columns) => Arc::new(alloc, columns.duplicate(alloc)?)?,
            Keeping::Common(columns) => Arc::try_clone(columns)?,
        };
        Ok(KeptColumns {
            keeping: Keeping::Common(columns),
        })
    }
}
