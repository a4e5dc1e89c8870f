//! The texts of pages.
ghost use Rattle.std.specs.Prelude.{◌≡◌, ◌++◌, ◌∷◌, [], length, map, OnOk};
ghost use Rattle.std.specs.List.{flat_map};
ghost use Rattle.value_text.specs.Writing.{cell_text};
ghost use Rattle.exporter.specs.Founds.{found_of};
ghost use Rattle.script_desk.specs.Texts.{again_text, counts_text, found_text, page_lines, reach_text, row_text};

use crate::replies::{push_number, push_told};
use exporter::{Found, Page};
use std::alloc::AllocError;
use value_text::{write_cell, write_escaped};
use vast_value::{Bytes, Cell};

/// Puts a query's page, and the events that were found, each on its line, behind what `out` holds.
pub fn push_page(query: u64, page: &Page, out: &mut Bytes) -> Result<(), AllocError>
    ensures { OnOk result (out.new ≡ out.old ++ (page_lines query page.now ++ 10 ∷ [])) }
{
    push_reach(query, page.past_to, page.live_to, out)?;
    let found = page.found.as_slice();
    push_counts(found.len() as u64, page.checked, page.touched, out)?;
    push_again(page.again, out)?;
    push_founds(found, out)?;
    out.push(b'\n')
}

fn push_reach(query: u64, past_to: u64, live_to: u64, out: &mut Bytes) -> Result<(), AllocError>
    ensures { OnOk result (out.new ≡ out.old ++ reach_text query past_to live_to) }
{
    push_told(b"page ", query, out)?;
    push_told(b" past ", past_to, out)?;
    push_told(b" live ", live_to, out)
}

fn push_counts(found: u64, checked: u64, touched: u64, out: &mut Bytes) -> Result<(), AllocError>
    ensures { OnOk result (out.new ≡ out.old ++ counts_text found checked touched) }
{
    push_told(b" found ", found, out)?;
    push_told(b" checked ", checked, out)?;
    push_told(b" touched ", touched, out)
}

fn push_again(again: Option<u64>, out: &mut Bytes) -> Result<(), AllocError>
    ensures { OnOk result (out.new ≡ out.old ++ again_text again) }
{
    match again {
        Some(batch) => push_told(b" again ", batch, out),
        None => out.append(b" again none"),
    }
}

fn push_founds(founds: &[Found], out: &mut Bytes) -> Result<(), AllocError>
    ensures { OnOk result (out.new ≡ out.old ++ flat_map found_text (map found_of founds.now)) }
{
    for found in founds {
        push_found(found, out)?;
    }
    Ok(())
}

fn push_found(found: &Found, out: &mut Bytes) -> Result<(), AllocError>
    ensures { OnOk result (out.new ≡ out.old ++ found_text (found_of found.now)) }
{
    out.push(b'\n')?;
    push_number(found.id, out)?;
    out.push(b'\t')?;
    write_escaped(found.layout.path(), out)?;
    push_cells(found.row.as_slice(), out)
}

fn push_cells(cells: &[Cell], out: &mut Bytes) -> Result<(), AllocError>
    ensures { OnOk result (out.new ≡ out.old ++ flat_map (λ x. 9 ∷ cell_text x) cells.now) }
{
    for cell in cells {
        push_cell(cell, out)?;
    }
    Ok(())
}

fn push_cell(cell: &Cell, out: &mut Bytes) -> Result<(), AllocError>
    ensures { OnOk result (out.new ≡ out.old ++ (9 ∷ cell_text cell.now)) }
{
    out.push(b'\t')?;
    write_cell(cell, out)
}
