//! The flows of a capture, as rows.
ghost use Rattle.std.specs.Prelude.{◌≡◌, ◌<◌, ◌≤◌, ◌^◌, ℕ, List, [], ◌∷◌, length, slice_get, Option, None, Some, MatchOption, true, false, IfOk, IfSome, IsSome, OnOk, OnErr};
ghost use Rattle.vast_value.specs.Headings.{heading_of};
ghost use Rattle.zeek_log.specs.Reader.{StepFits};
ghost use Rattle.zeek_log.specs.Steps.{step_of};
ghost use Rattle.pcap_flow.specs.Rows.{flow_heading};
ghost use Rattle.importer.specs.Captures.{flows_behind, flows_heading};
ghost use Rattle.importer.specs.Coming.{Flows as FlowsStanding, IsLostEnd, StepsOn, rows_left, steps_given};
ghost use Rattle.importer.specs.Reads.{FlowsAnswer, flows_after};

use crate::carrying::carried_copy;
use crate::ends::{ImportEnd, end_answer};
use pcap_flow::{Flows, Rows, flow_layout, packet_layout};
use std::alloc::{AllocError, Global};
use std::marker::Model;
use vast_value::{Layout, Row};
use zeek_log::Step;

/// The place of the column `proto` among those of a flow.
const PROTOCOL: usize = 5;

/// Gives the flows of a capture, behind its packets.
///
/// Contracts see whether the head of flows was given, the rows still to come, and the end behind them; and the cells of the
/// row at which it stands.
#[derive(Drop)]
pub struct FlowReader {
    /// The layout of the last head.
    layout: Layout,
    /// Whether the head of flows was given.
    told: bool,
    rows: Rows,
    /// The place of the next row.
    at: usize,
    end: Option<ImportEnd>,
    /// The row at which the reader stands, without cells where it stands at none.
    row: Row,
}

impl Model for FlowReader {
    ghost use Rattle.std.specs.Prelude.{◌≡◌, ◌≤◌, true, drop, length, map};
    ghost use Rattle.std.specs.List.{list_all};
    ghost use Rattle.vast_value.specs.Headings.{fits_fields, heading_of};
    ghost use Rattle.pcap_flow.specs.Rows.{flow_heading};
    ghost use Rattle.importer.specs.Captures.{FlowsAt, Rowed, heading_by};
    ghost use Rattle.importer.specs.Carrying.{carried};
    ghost use Rattle.importer.specs.Coming.{IsLostEnd};

    ghost Value = { Rowed FlowsAt };

    ghost view = { λ f. record { at = record { told = f.told; rows = map (carried flow_heading.fields) (drop f.at f.rows); end = f.end }; row = f.row } };

    ghost invariant = { λ f. (f.at ≤ length f.rows) × (heading_of f.layout ≡ heading_by f.told) × (list_all (fits_fields flow_heading.fields) f.rows ≡ true) × (¬ IsLostEnd f.end) };
}

impl FlowReader {
    /// The rows of these flows, and this end behind them.
    pub fn new(alloc: Global, flows: Flows, end: Option<ImportEnd>) -> Result<Self, AllocError>
        requires there { ¬ IsLostEnd end }
        ensures { IfOk result (λ reader. reader ≡ record { at = flows_behind flows.flows end; row = [] }) }
    {
        let layout = packet_layout(alloc)?;
        let rows = flows.finish(alloc)?;
        Ok(FlowReader {
            layout,
            told: false,
            rows,
            at: 0,
            end,
            row: Row::new(alloc),
        })
    }

    /// The next step, `None` where all was given, or why no more comes.
    pub fn next(&mut self, alloc: Global) -> Result<Option<Step>, ImportEnd>
        ensures goes { (left : Option (List ℕ)) → StepsOn (FlowsStanding self.old.at) (flows_after self.new.at result) left left (steps_given result) }
        ensures fits { IfOk result (λ found. IfSome found (λ step. StepFits (Some (flows_heading self.old.at)) (Some (flows_heading self.new.at)) (step_of step))) }
        ensures answers { FlowsAnswer self.old.at.end result }
        ensures end { self.new.at.end ≡ self.old.at.end }
        ensures there { ¬ IsLostEnd self.new.at.end }
        ensures less { IfOk result (λ found. IsSome found → rows_left self.new.at < rows_left self.old.at) }
        ensures row { IfOk result (λ found. IsSome found → self.new.row ≡ []) }
    {
        self.row = Row::new(alloc);
        if !self.told {
            return Ok(Some(Step::Head(self.head(alloc)?)));
        }
        let Some(row) = row_at(&self.rows, self.at) else {
            return end_answer(self.end);
        };
        let row = carried_copy(alloc, Some(PROTOCOL), row.as_slice())?;
        self.at += 1;
        Ok(Some(Step::Line(row)))
    }

    /// The head of flows, which is given once.
    pub fn head(&mut self, alloc: Global) -> Result<Layout, AllocError>
        requires { self.old.at.told ≡ false }
        ensures head { IfOk result (λ layout. heading_of layout ≡ flow_heading) }
        ensures told { OnOk result (self.new ≡ record { at = record { told = true; rows = self.old.at.rows; end = self.old.at.end }; row = self.old.row }) }
        ensures stays { OnErr result (self.new ≡ self.old) }
    {
        let layout = flow_layout(alloc)?;
        self.layout = flow_layout(alloc)?;
        self.told = true;
        Ok(layout)
    }

    /// Stands at a row.
    pub fn stand_at(&mut self, row: Row)
        ensures { self.new ≡ record { at = self.old.at; row = row } }
    {
        self.row = row;
    }

    /// The row at which the reader stands.
    pub fn row(&self) -> &Row
        ensures { result.now ≡ self.now.row }
    {
        &self.row
    }

    /// The layout of the last head.
    pub fn layout(&self) -> &Layout
        ensures { heading_of result.now ≡ flows_heading self.now.at }
    {
        &self.layout
    }
}

fn row_at(rows: &Rows, at: usize) -> Option<&Row>
    ensures found { MatchOption result (length rows.now ≤ at) (λ row. slice_get rows.now at ≡ Some row.now) }
    ensures within { IfSome result (λ row. (at < length rows.now) × (length rows.now < 2 ^ 64)) }
{
    rows.as_slice().get(at)
}
