//! The texts of rows, layouts and ends.
ghost use Rattle.std.specs.Prelude.{◌≡◌, ◌++◌, ◌∷◌, codes, OnOk};
ghost use Rattle.std.specs.Fmt.{decimal};
ghost use Rattle.std.specs.List.{flat_map};
ghost use Rattle.value_text.specs.Writing.{cell_text};
ghost use Rattle.vast_value.specs.Headings.{heading_of};
ghost use Rattle.input_report.specs.Texts.{capture_fault_name, end_text, fault_name, fault_text, form_name, line, offset_text, part_text, row_text};

use importer::{FormFault, ImportEnd, InputFault, Place};
use itoa::Buffer as Digits;
use pcap_file::CaptureFault;
use std::alloc::AllocError;
use value_text::write_escaped;
use vast_value::{Bytes, Layout};
use zeek_log::ZeekFault;

/// Puts the line of the row at a place behind what `out` holds: its path, and each cell behind a tab.
pub fn push_row(layout: &Layout, place: &Place<'_>, out: &mut Bytes) -> Result<(), AllocError>
    ensures { OnOk result (out.new ≡ out.old ++ line (row_text (record { heading = heading_of layout.now; cells = place.now.row }))) }
{
    write_escaped(layout.path(), out)?;
    place.write_row(out)?;
    out.push(b'\n')
}

/// Puts the line of a layout behind what `out` holds.
pub fn push_layout(layout: &Layout, rows: u64, out: &mut Bytes) -> Result<(), AllocError>
    ensures { OnOk result (out.new ≡ out.old ++ line (part_text (record { heading = heading_of layout.now; rows = rows }))) }
{
    out.append(b"layout ")?;
    write_escaped(layout.path(), out)?;
    out.append(b" columns ")?;
    push_number(layout.columns().len() as u64, out)?;
    out.append(b" rows ")?;
    push_number(rows, out)?;
    out.push(b'\n')
}

fn push_number(number: u64, out: &mut Bytes) -> Result<(), AllocError>
    ensures { OnOk result (out.new ≡ out.old ++ decimal number) }
{
    let mut digits = Digits::new();
    out.append(digits.format(number).as_bytes())
}

/// Puts how an input ended behind what `out` holds, where all of it was given if `None`.
pub fn push_end(end: Option<ImportEnd>, out: &mut Bytes) -> Result<(), AllocError>
    ensures { OnOk result (out.new ≡ out.old ++ end_text end) }
{
    match end {
        None => out.append(b"done"),
        Some(ImportEnd::Fault(what)) => push_fault(what, out),
        Some(ImportEnd::ReadFault) => out.append(b"read fault"),
        Some(ImportEnd::TooLong) => out.append(b"too long"),
        Some(ImportEnd::Memory) => out.append(b""),
    }
}

fn push_fault(fault: InputFault, out: &mut Bytes) -> Result<(), AllocError>
    ensures { OnOk result (out.new ≡ out.old ++ fault_text fault) }
{
    match fault {
        InputFault::Line { line, column, what } => {
            out.append(b"fault line ")?;
            push_number(line, out)?;
            out.append(b" column ")?;
            push_number(u64::from(column), out)?;
            out.push(b' ')?;
            out.append(fault_name(what))
        }
        InputFault::Place { offset, what } => push_offset(offset, capture_fault_name(what), out),
        InputFault::Form(what) => push_offset(0, form_name(what), out),
    }
}

fn push_offset(offset: u64, name: &[u8], out: &mut Bytes) -> Result<(), AllocError>
    ensures { OnOk result (out.new ≡ out.old ++ offset_text offset name.now) }
{
    out.append(b"fault offset ")?;
    push_number(offset, out)?;
    out.push(b' ')?;
    out.append(name)
}

fn fault_name(what: ZeekFault) -> &'static [u8]
    ensures { result.now ≡ fault_name what }
{
    match what {
        ZeekFault::NoHead => b"NoHead",
        ZeekFault::BadSeparator => b"BadSeparator",
        ZeekFault::FieldsTypes => b"FieldsTypes",
        ZeekFault::TooManyColumns => b"TooManyColumns",
        ZeekFault::EmptyName => b"EmptyName",
        ZeekFault::SameName => b"SameName",
        ZeekFault::UnknownKind => b"UnknownKind",
        ZeekFault::Floating => b"Floating",
        ZeekFault::CellCount => b"CellCount",
        ZeekFault::BadCell => b"BadCell",
        ZeekFault::LineTooLong => b"LineTooLong",
    }
}

fn capture_fault_name(what: CaptureFault) -> &'static [u8]
    ensures { result.now ≡ capture_fault_name what }
{
    match what {
        CaptureFault::BadMagic => b"BadMagic",
        CaptureFault::VersionUnknown => b"VersionUnknown",
        CaptureFault::LinkUnknown => b"LinkUnknown",
        CaptureFault::RecordTooLong => b"RecordTooLong",
        CaptureFault::ShortHead => b"ShortHead",
        CaptureFault::ShortRecord => b"ShortRecord",
    }
}

fn form_name(what: FormFault) -> &'static [u8]
    ensures { result.now ≡ form_name what }
{
    match what {
        FormFault::Compressed => b"Compressed",
        FormFault::Pcapng => b"Pcapng",
    }
}
