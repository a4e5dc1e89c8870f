//! Laws of places and pieces, and of cells that need no look at their bytes.
ghost use Rattle.std.specs.Prelude.{◌≡◌, ◌==◌, true, IsSome, codes};
ghost use Rattle.std.specs.List.{slice_split};
ghost use Rattle.std.specs.Str.{bytes_eq};
ghost use Rattle.value_reading.specs.declared.marks.Marks.{Marks};
ghost use Rattle.value_reading.specs.Reading.{cell_read};
ghost use Rattle.vast_value.specs.declared.kind.Elem.TheVariants.{Text, Name};
ghost use Rattle.vast_value.specs.declared.kind.Elem.{Elem};
ghost use Rattle.vast_value.specs.declared.kind.Kind.{Kind};
ghost use Rattle.vast_value.specs.declared.kind.Kind.TheVariants.{One, SetOf, VecOf};
ghost use Rattle.plain_cells.specs.Own.{IsOwnText};
ghost use Rattle.plain_cells.specs.Places.{cut_at, places_of};
ghost use Rattle.plain_cells.specs.Readable.{IsReadable};

/// A text split at each separator is what stands between the places of the separators.
#[tactic(auto, using(crate::proofs::PlaceLemmas::pieces_stand_between))]
pub fn pieces_stand_between(separator: u8, text: &[u8])
    ensures { cut_at (places_of (λ b. b == separator) 0 text.now) 0 text.now ≡ slice_split (λ b. b == separator) text.now }
{}

/// Any bytes can be read as a string and as an enum, and as a container of strings or of enums.
pub fn texts_are_readable(raw: &[u8])
    ensures text { IsReadable (One Text) raw.now }
    ensures name { IsReadable (One Name) raw.now }
    ensures text_set { IsReadable (SetOf Text) raw.now }
    ensures name_set { IsReadable (SetOf Name) raw.now }
    ensures text_list { IsReadable (VecOf Text) raw.now }
    ensures name_list { IsReadable (VecOf Name) raw.now }
{}

/// The unset text can be read as a cell of any kind, and the empty text as a container of any kind.
pub fn marks_are_readable(raw: &[u8])
    ensures unset { (marks : Marks) (kind : Kind) → bytes_eq raw.now marks.unset ≡ true → IsSome (cell_read marks kind raw.now) }
    ensures empty_set { (marks : Marks) (elem : Elem) → bytes_eq raw.now marks.empty ≡ true → IsSome (cell_read marks (SetOf elem) raw.now) }
    ensures empty_list { (marks : Marks) (elem : Elem) → bytes_eq raw.now marks.empty ≡ true → IsSome (cell_read marks (VecOf elem) raw.now) }
{}

/// The usual unset text stands as it is written in a cell of any kind, and the usual empty text in a container of any kind.
pub fn marks_stand_as_written()
    ensures unset { (kind : Kind) → IsOwnText kind (codes "-") }
    ensures empty_set { (elem : Elem) → IsOwnText (SetOf elem) (codes "(empty)") }
    ensures empty_list { (elem : Elem) → IsOwnText (VecOf elem) (codes "(empty)") }
{}
