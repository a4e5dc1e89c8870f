//! The layouts of packets and flows.
ghost use Rattle.std.specs.Prelude.{◌≡◌, ◌≤◌, ◌^◌, ◌++◌, ◌∷◌, [], None, length, map, IfOk, OnOk};
ghost use Rattle.vast_value.specs.Headings.{heading_of, field_of};
ghost use Rattle.vast_value.specs.Layouts.{layout_fault};
ghost use Rattle.pcap_flow.specs.Rows.{field, packet_heading, flow_heading};

use std::alloc::{AllocError, Global};
use vast_value::{Bytes, Column, Columns, Elem, Kind, Layout};

/// The layout `packet`: the columns of [`crate::packet_row`].
pub fn packet_layout(alloc: Global) -> Result<Layout, AllocError>
    ensures { IfOk result (λ layout. heading_of layout ≡ packet_heading) }
{
    let path = Bytes::copy(alloc, b"packet")?;
    let columns = packet_columns(alloc)?;
    Ok(layout(path, columns))
}

/// The layout `flow`: the columns of the rows of [`crate::Flows::finish`].
pub fn flow_layout(alloc: Global) -> Result<Layout, AllocError>
    ensures { IfOk result (λ layout. heading_of layout ≡ flow_heading) }
{
    let path = Bytes::copy(alloc, b"flow")?;
    let columns = flow_columns(alloc)?;
    Ok(layout(path, columns))
}

fn layout(path: Bytes, columns: Columns) -> Layout
    requires short { length path ≤ 2 ^ 24 }
    requires good { layout_fault path columns ≡ None }
    ensures made { (result.path ≡ path) × (result.columns ≡ columns) }
{
    match Layout::new(path, columns) {
        Ok(layout) => layout,
        Err(_) => unreachable!(),
    }
}

fn packet_columns(alloc: Global) -> Result<Columns, AllocError>
    ensures { IfOk result (λ columns. map field_of columns ≡ packet_heading.fields) }
{
    let mut columns = Columns::with_capacity(alloc, 8)?;
    add(alloc, &mut columns, b"ts", Elem::Time)?;
    add(alloc, &mut columns, b"caplen", Elem::Count)?;
    add(alloc, &mut columns, b"origlen", Elem::Count)?;
    add(alloc, &mut columns, b"src", Elem::Addr)?;
    add(alloc, &mut columns, b"sport", Elem::Port)?;
    add(alloc, &mut columns, b"dst", Elem::Addr)?;
    add(alloc, &mut columns, b"dport", Elem::Port)?;
    add(alloc, &mut columns, b"proto", Elem::Name)?;
    Ok(columns)
}

fn flow_columns(alloc: Global) -> Result<Columns, AllocError>
    ensures { IfOk result (λ columns. map field_of columns ≡ flow_heading.fields) }
{
    let mut columns = Columns::with_capacity(alloc, 11)?;
    add(alloc, &mut columns, b"ts", Elem::Time)?;
    add(alloc, &mut columns, b"id.orig_h", Elem::Addr)?;
    add(alloc, &mut columns, b"id.orig_p", Elem::Port)?;
    add(alloc, &mut columns, b"id.resp_h", Elem::Addr)?;
    add(alloc, &mut columns, b"id.resp_p", Elem::Port)?;
    add(alloc, &mut columns, b"proto", Elem::Name)?;
    add(alloc, &mut columns, b"duration", Elem::Span)?;
    add(alloc, &mut columns, b"orig_pkts", Elem::Count)?;
    add(alloc, &mut columns, b"orig_bytes", Elem::Count)?;
    add(alloc, &mut columns, b"resp_pkts", Elem::Count)?;
    add(alloc, &mut columns, b"resp_bytes", Elem::Count)?;
    Ok(columns)
}

#[tactic(auto, using(crate::proofs::LayoutLemmas::fields_push))]
fn add(alloc: Global, columns: &mut Columns, name: &[u8], elem: Elem) -> Result<(), AllocError>
    requires { length name.now ≤ 2 ^ 24 }
    ensures { OnOk result (map field_of columns.new ≡ map field_of columns.old ++ field name.now elem ∷ []) }
{
    let name = Bytes::copy(alloc, name)?;
    columns.push(Column {
        name,
        kind: Kind::One(elem),
    })
}
