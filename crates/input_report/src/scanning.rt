//! The rows of an input that match a query.
ghost use Rattle.std.specs.Prelude.{◌≡◌, ◌++◌, ◌≤◌, ◌+◌, ◌<◌, ◌^◌, Some, OnOk};
ghost use Rattle.std.specs.Option.{option_map};
ghost use Rattle.vast_value.specs.Headings.{Heading, heading_of};
ghost use Rattle.query_meaning.specs.Resolving.{IsOf};
ghost use Rattle.zeek_log.specs.Table.{Line};
ghost use Rattle.importer.specs.Coming.{heading_at, step_at};
ghost use Rattle.importer.specs.Ending.{only_end};
ghost use Rattle.input_report.specs.Reports.{Carries, HasCells, heading_after, match_text, scan_behind};
ghost use Rattle.input_report.specs.Texts.{scan_end, line, end_text};

use crate::report::{Report, last_layout};
use crate::texts::{push_end, push_row};
use importer::{ImportEnd, Place};
use query_meaning::{Expr, Resolved, ResolvedTest, resolve};
use std::alloc::{AllocError, Global};
use vast_value::{Bytes, Layout};
use zeek_log::Moved;

/// The line of each row that matches, and then how the input ended, but where all went well.
#[derive(Drop)]
pub struct ScanReport<'a> {
    expr: &'a Expr,
    /// The last layout.
    layout: Option<Layout>,
    /// The query with its columns chosen for that layout.
    resolved: Resolved,
    ghost chosen: { (heading : Heading) → option_map heading_of layout ≡ Some heading → IsOf heading expr.now resolved },
}

impl<'a> ScanReport<'a> {
    /// A report that was told nothing yet.
    pub fn new(expr: &'a Expr) -> Self
        ensures expr { result.expr.now ≡ expr.now }
        ensures layout { result.layout ≡ None }
    {
        ScanReport {
            expr,
            layout: None,
            resolved: Resolved::Test(ResolvedTest::Fixed(false)),
        }
    }
}

impl Report for ScanReport<'_> {
    ghost behind = { λ report. scan_behind (option_map heading_of report.layout) report.expr.now };

    ghost heading = { λ report. option_map heading_of report.layout };

    ghost rows = { λ report. 0 };

    #[tactic(auto, using(crate::proofs::ReportLemmas::scan_head, crate::proofs::ReportLemmas::scan_line))]
    fn take(
        &mut self,
        alloc: Global,
        place: &Place<'_>,
        moved: Moved,
        out: &mut Bytes,
    ) -> Result<(), AllocError> {
        match moved {
            Moved::Head => {
                let Some(layout) = last_layout(alloc, place)? else {
                    unreachable!()
                };
                self.resolved = resolve(alloc, self.expr, &layout)?;
                self.layout = Some(layout);
                Ok(())
            }
            Moved::Line => push_match(alloc, self, place, out),
        }
    }

    fn end(&self, end: Option<ImportEnd>, out: &mut Bytes) -> Result<(), AllocError> {
        push_scan_end(end, out)
    }
}

// Puts the line of the row at this place behind what `out` holds, if it matches.
fn push_match(
    alloc: Global,
    report: &ScanReport<'_>,
    place: &Place<'_>,
    out: &mut Bytes,
) -> Result<(), AllocError>
    requires { HasCells (option_map heading_of report.now.layout) (Line place.now.row) }
    ensures { OnOk result (out.new ≡ out.old ++ match_text (option_map heading_of report.now.layout) place.now.row report.now.expr.now) }
{
    let Some(layout) = &report.layout else {
        return Ok(());
    };
    if !report.resolved.holds(alloc, place)? {
        return Ok(());
    }
    push_row(layout, place, out)
}

fn push_scan_end(end: Option<ImportEnd>, out: &mut Bytes) -> Result<(), AllocError>
    ensures { OnOk result (out.new ≡ out.old ++ scan_end end) }
{
    match end {
        None => Ok(()),
        Some(_) => {
            push_end(end, out)?;
            out.push(b'\n')
        }
    }
}
