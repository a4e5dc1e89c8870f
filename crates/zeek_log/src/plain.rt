//! Lines that are seen to be rows before any of their cells is read.
ghost use Rattle.std.specs.Prelude.{◌≡◌, ◌≢◌, ◌+◌, ◌<◌, ◌≤◌, ◌∷◌, [], get_or, length, map, take, drop, IfSome, IsSome, IsTrue};
ghost use Rattle.plain_cells.specs.Readable.{IsReadable};
ghost use Rattle.vast_value.specs.Headings.{field_of};
ghost use Rattle.value_text.specs.Reading.{cell_read};
ghost use Rattle.vast_value.specs.declared.kind.Kind.{Kind};
ghost use Rattle.zeek_log.specs.Answers.{told_of};
ghost use Rattle.zeek_log.specs.Looks.{form_of};
ghost use Rattle.zeek_log.specs.Plain.{AreInOrder, AreRead, IsPlain, cut_before};

use crate::known::Known;
use crate::line::MOST_LINE;
use crate::looked::{Form, LookedLayout};
use crate::plain_row::{end_of, start_of};
use plain_cells::{
    is_plain_address, is_plain_bool, is_plain_count, is_plain_groups, is_plain_port, is_plain_time,
    line_places,
};
use value_text::Marks;

/// So many bytes behind a line may be looked at with it.
const SPARE: usize = 64;

/// No more bytes are held than these.
const MOST_HELD: usize = 1 << 30;

/// How many cells the line at the front of the bytes held has, where it is seen to be a row of the last layout. The places
/// behind its cells are then at the front of `places`. `None` says nothing of the line.
pub fn plain_line(known: &Known, held: &[u8], places: &mut [u32]) -> Option<usize>
    ensures { IfSome result (λ count. IsPlain (told_of known.now) held.now places.new count) }
{
    let Some(layout) = &known.layout else {
        return None;
    };
    if known.path.as_slice().is_empty() || held.len() > MOST_HELD {
        return None;
    }
    let count = line_places(known.separator, held, places)?;
    let columns = layout.layout().columns();
    if count == 0 || count != columns.len() {
        return None;
    }
    let end = places[count - 1] as usize;
    if !may_be_row(held, end) || !are_plain(&known.marks, layout, held, end, places) {
        return None;
    }
    Some(count)
}

/// Whether a line of so many bytes is a data line, if its cells are well spelled, with enough bytes behind it.
fn may_be_row(held: &[u8], end: usize) -> bool
    ensures { IsTrue result → (0 < end) × (end ≤ 1048576) × (end + 64 ≤ length held.now) × (get_or held.now 0 0 ≢ 35) }
{
    if end == 0 || end > MOST_LINE || end + SPARE > held.len() {
        return false;
    }
    held[0] != b'#'
}

/// Whether the cells before the places of a line are seen to be well spelled.
#[inline(never)]
fn are_plain(
    marks: &Marks,
    layout: &LookedLayout,
    text: &[u8],
    count: usize,
    places: &[u32],
) -> bool
    requires places { length layout.now.columns ≤ length places.now }
    requires order { AreInOrder 0 count (take (length layout.now.columns) places.now) }
    requires spare { count + 64 ≤ length text.now }
    ensures { IsTrue result → AreRead marks.now (map field_of layout.now.columns) (cut_before (take (length layout.now.columns) places.now) 0 (take count text.now)) }
{
    let dash = is_dash(marks);
    for look in layout.looks() {
        let from = start_of(places, look.column);
        let to = end_of(places, look.column);
        let (_, cell) = text.split_at(from);
        if !is_plain(marks, dash, look.form, cell, to - from) {
            return false;
        }
    }
    true
}

/// Whether the first so many bytes are seen to be a cell of the kind. `dash` says that the unset mark is known to be
/// the usual one.
#[inline(always)]
fn is_plain(marks: &Marks, dash: bool, form: Form, cell: &[u8], count: usize) -> bool
    requires dash { IsTrue dash → marks.now.unset ≡ 45 ∷ [] }
    requires spare { count + 32 ≤ length cell.now }
    ensures { IsTrue result → (kind : Kind) → form_of kind ≡ form → IsSome (cell_read marks.now kind (take count cell.now)) }
{
    if dash && is_dash_cell(cell, count) {
        return true;
    }
    is_plain_form(form, cell, count) || is_unset(marks, cell, count)
}

/// Whether the unset mark is the usual one.
fn is_dash(marks: &Marks) -> bool
    ensures { IsTrue result → marks.now.unset ≡ 45 ∷ [] }
{
    marks.unset.as_slice() == b"-".as_slice()
}

/// Whether the first bytes are a dash alone.
#[inline(always)]
#[tactic(auto, using(crate::proofs::PlainLemmas::dash_cell))]
fn is_dash_cell(text: &[u8], count: usize) -> bool
    requires { count ≤ length text.now }
    ensures { IsTrue result → take count text.now ≡ 45 ∷ [] }
{
    count == 1 && text[0] == b'-'
}

#[inline(always)]
#[tactic(auto, using(plain_cells::proofs::ReadableLemmas::unset_read))]
fn is_unset(marks: &Marks, text: &[u8], count: usize) -> bool
    requires { count ≤ length text.now }
    ensures { IsTrue result → (kind : Kind) → IsSome (cell_read marks.now kind (take count text.now)) }
{
    let (raw, _) = text.split_at(count);
    raw == marks.unset.as_slice()
}

/// Whether the first so many bytes are seen to be a cell of each kind of the form.
#[inline(always)]
#[tactic(auto, using(crate::proofs::LookLemmas::number_form, crate::proofs::LookLemmas::port_form, crate::proofs::LookLemmas::address_form, crate::proofs::LookLemmas::seconds_form, crate::proofs::LookLemmas::truth_form))]
fn is_plain_form(form: Form, text: &[u8], count: usize) -> bool
    requires { count + 32 ≤ length text.now }
    ensures { IsTrue result → (kind : Kind) → form_of kind ≡ form → IsReadable kind (take count text.now) }
{
    match form {
        Form::Number => is_plain_count(text, count),
        Form::Port => is_plain_port(text, count),
        Form::Address => is_plain_address(text, count) || is_plain_groups(text, count),
        Form::Seconds => is_plain_time(text, count),
        Form::Truth => is_plain_bool(text, count),
        Form::Other => false,
    }
}
