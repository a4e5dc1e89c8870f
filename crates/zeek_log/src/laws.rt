//! Laws of the lines and cells of a text, and of a whole log.
ghost use Rattle.std.specs.Prelude.{◌≡◌, ◌+◌, ◌==◌, ◌∷◌, List, Ok, count_by, false, length, map, true};
ghost use Rattle.std.specs.List.{join_with_byte};
ghost use Rattle.source_block.specs.declared.stop.Stop.TheVariants.{AtEnd};
ghost use Rattle.value_text.specs.declared.Marks.{Marks};
ghost use Rattle.value_text.specs.Writing.{AreUsual, cell_text};
ghost use Rattle.vast_value.specs.declared.cell.Cell.{Cell};
ghost use Rattle.vast_value.specs.Headings.{Field, Heading, fits_fields};
ghost use Rattle.vast_value.specs.Layouts.{is_empty};
ghost use Rattle.zeek_log.specs.declared.step.ZeekEnd.TheVariants.{Done};
ghost use Rattle.zeek_log.specs.Laws.{IsWritable, written_log};
ghost use Rattle.zeek_log.specs.Lines.{lines_of, pieces_of};
ghost use Rattle.zeek_log.specs.Steps.{steps_of};
ghost use Rattle.zeek_log.specs.Table.{Head, Line, row_read};

/// The lines of a text, with a newline between two, are the text, and they are one more than its newlines.
#[tactic(auto, using(crate::proofs::LawLemmas::lines_joined, crate::proofs::LawLemmas::lines_counted))]
pub fn lines_are_a_text(text: &[u8])
    ensures joined { join_with_byte 10 (lines_of AtEnd text.now) ≡ text.now }
    ensures counted { length (lines_of AtEnd text.now) ≡ count_by (λ b. b == 10) text.now + 1 }
{}

/// The cells of a line, with the separator between two, are the line, and they are one more than its separators.
#[tactic(auto, using(crate::proofs::LawLemmas::pieces_joined, crate::proofs::LawLemmas::pieces_counted))]
pub fn cells_are_a_line(separator: u8, line: &[u8])
    ensures joined { join_with_byte separator (pieces_of separator line.now) ≡ line.now }
    ensures counted { length (pieces_of separator line.now) ≡ count_by (λ b. b == separator) line.now + 1 }
{}

/// The texts of a row's cells, as they are written, with a tab between two, are read as this row.
#[tactic(auto, using(crate::proofs::RowLawLemmas::row_again))]
pub fn a_written_row_is_read()
    ensures { (marks : Marks) (fields : List Field) (row : List Cell) → AreUsual marks → fits_fields fields row ≡ true → is_empty row ≡ false → row_read marks fields (pieces_of 9 (join_with_byte 9 (map cell_text row))) ≡ Ok row }
{}

/// A log that is written of a heading and rows gives this heading, these rows, and its end.
#[tactic(auto, using(crate::proofs::WrittenLemmas::log_again))]
pub fn a_written_log_is_read()
    ensures { (heading : Heading) (rows : List (List Cell)) → IsWritable heading rows → steps_of (written_log heading rows) AtEnd ≡ record { given = Head heading ∷ map Line rows; end = Done } }
{}
