//! The layouts of an input.
ghost use Rattle.std.specs.Prelude.{◌≡◌, ◌++◌, ◌≤◌, ◌+◌, ◌<◌, ◌^◌, OnOk};
ghost use Rattle.std.specs.Option.{option_map};
ghost use Rattle.vast_value.specs.Headings.{heading_of};
ghost use Rattle.importer.specs.Coming.{heading_at, step_at};
ghost use Rattle.importer.specs.Ending.{only_end};
ghost use Rattle.input_report.specs.Reports.{Carries, HasCells, heading_after, check_behind, counted_text};
ghost use Rattle.input_report.specs.Texts.{check_end};

use crate::report::{Report, last_layout};
use crate::texts::{push_end, push_layout};
use importer::{ImportEnd, Place};
use std::alloc::{AllocError, Global};
use vast_value::{Bytes, Layout};
use zeek_log::Moved;

/// The line of each layout with the number of its rows, and then how the input ended.
#[derive(Drop)]
pub struct CheckReport {
    /// The last layout.
    pub layout: Option<Layout>,
    /// Its rows so far.
    pub rows: u64,
}

impl Report for CheckReport {
    ghost behind = { λ report. check_behind (option_map heading_of report.layout) report.rows };

    ghost heading = { λ report. option_map heading_of report.layout };

    ghost rows = { λ report. report.rows };

    #[tactic(auto, using(crate::proofs::ReportLemmas::check_head, crate::proofs::ReportLemmas::check_line))]
    fn take(
        &mut self,
        alloc: Global,
        place: &Place<'_>,
        moved: Moved,
        out: &mut Bytes,
    ) -> Result<(), AllocError> {
        match moved {
            Moved::Head => {
                push_counted(&self.layout, self.rows, out)?;
                self.layout = last_layout(alloc, place)?;
                self.rows = 0;
                Ok(())
            }
            Moved::Line => {
                self.rows += 1;
                Ok(())
            }
        }
    }

    #[tactic(auto, using(crate::proofs::ReportLemmas::check_ends))]
    fn end(&self, end: Option<ImportEnd>, out: &mut Bytes) -> Result<(), AllocError> {
        push_counted(&self.layout, self.rows, out)?;
        push_check_end(end, out)
    }
}

// Puts the line of the last layout behind what `out` holds, if there is one.
fn push_counted(layout: &Option<Layout>, rows: u64, out: &mut Bytes) -> Result<(), AllocError>
    ensures { OnOk result (out.new ≡ out.old ++ counted_text (option_map heading_of layout.now) rows) }
{
    match layout {
        Some(layout) => push_layout(layout, rows, out),
        None => Ok(()),
    }
}

fn push_check_end(end: Option<ImportEnd>, out: &mut Bytes) -> Result<(), AllocError>
    ensures { OnOk result (out.new ≡ out.old ++ check_end end) }
{
    out.append(b"end ")?;
    push_end(end, out)?;
    out.push(b'\n')
}
