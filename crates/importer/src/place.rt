//! The step at which an input stands.
ghost use Rattle.std.specs.Prelude.{◌≡◌, ◌++◌, ◌∷◌, None, Some, MatchOption, OnOk};
ghost use Rattle.std.specs.List.{flat_map};
ghost use Rattle.value_text.specs.Writing.{cell_text};
ghost use Rattle.vast_value.specs.Headings.{heading_of};
ghost use Rattle.importer.specs.Coming.{heading_at};
ghost use Rattle.importer.specs.Inputs.{row_of, standing_of};

use crate::input::Phase;
use std::alloc::{AllocError, Global};
use std::marker::Model;
use value_text::write_cell;
use vast_value::{Bytes, Layout, PlainNumber, Row, RowView, SeenCell};

/// The step at which an input stands, without its source. It is seen as the row at which the input stands, one without cells
/// where it stands at none. Contracts see where the input stands and that row.
#[derive(Drop)]
pub struct Place<'a> {
    alloc: Global,
    phase: &'a Phase,
}

impl<'a> Model for Place<'a> {
    ghost use Rattle.importer.specs.Coming.{Placed};
    ghost use Rattle.importer.specs.Inputs.{row_of, standing_of};

    ghost Value = { Placed };

    ghost view = { λ place. record { at = standing_of place.phase.now; row = row_of place.phase.now } };
}

impl<'a> Place<'a> {
    pub(crate) fn of(alloc: Global, phase: &'a Phase) -> Place<'a>
        ensures { result ≡ record { at = standing_of phase.now; row = row_of phase.now } }
    {
        Place { alloc, phase }
    }

    /// The layout of the last head, as long as its rows may come.
    pub fn layout(&self) -> Option<&Layout>
        ensures { MatchOption result (heading_at self.now.at ≡ None) (λ layout. heading_at self.now.at ≡ Some (heading_of layout.now)) }
    {
        match self.phase {
            Phase::Log(log) => log.layout(),
            Phase::Packets(packets) => packets.layout(),
            Phase::Flows(flows) => Some(flows.layout()),
            _ => None,
        }
    }

    /// Puts the cells of the row behind what `out` holds, each as it is written and behind a tab.
    pub fn write_row(&self, out: &mut Bytes) -> Result<(), AllocError>
        ensures { OnOk result (out.new ≡ out.old ++ flat_map (λ x. 9 ∷ cell_text x) self.now.row) }
    {
        match self.phase {
            Phase::Log(log) => log.write_row(self.alloc, out),
            Phase::Packets(packets) => write_made(packets.row(), out),
            Phase::Flows(flows) => write_made(flows.row(), out),
            _ => Ok(()),
        }
    }
}

impl RowView for Place<'_> {
    ghost cells = { λ place. place.row };

    fn cell(&self, alloc: Global, column: usize) -> Result<Option<SeenCell<'_>>, AllocError> {
        match self.phase {
            Phase::Log(log) => log.cell(alloc, column),
            Phase::Packets(packets) => packets.row().cell(alloc, column),
            Phase::Flows(flows) => flows.row().cell(alloc, column),
            _ => Ok(None),
        }
    }

    fn plain_number(&self, column: usize) -> Option<PlainNumber> {
        match self.phase {
            Phase::Log(log) => log.plain_number(column),
            Phase::Packets(packets) => packets.row().plain_number(column),
            Phase::Flows(flows) => flows.row().plain_number(column),
            _ => None,
        }
    }
}

/// Puts the cells of a row behind what `out` holds, each as it is written and behind a tab.
fn write_made(row: &Row, out: &mut Bytes) -> Result<(), AllocError>
    ensures { OnOk result (out.new ≡ out.old ++ flat_map (λ x. 9 ∷ cell_text x) row.now) }
{
    for cell in row.as_slice() {
        out.push(b'\t')?;
        write_cell(cell, out)?;
    }
    Ok(())
}
