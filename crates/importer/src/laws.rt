//! Laws of carrying, of cutting, and of whole runs of answers.
ghost use Rattle.std.specs.Prelude.{◌≡◌, ℕ, ◌++◌, ◌∷◌, [], Bool, List, Option, Some, true};
ghost use Rattle.std.specs.List.{flat_map};
ghost use Rattle.vast_value.specs.declared.cell.Cell.{Cell};
ghost use Rattle.vast_value.specs.Headings.{Field, Heading, fits_fields};
ghost use Rattle.event_batch.specs.Contents.{Content};
ghost use Rattle.source_block.specs.declared.stop.Stop.{Stop};
ghost use Rattle.zeek_log.specs.Table.{LogStep, Head};
ghost use Rattle.importer.specs.declared.ends.ImportEnd.{ImportEnd};
ghost use Rattle.importer.specs.Carrying.{carried};
ghost use Rattle.importer.specs.Coming.{BatchesOn, Ended, Importing, IsLost, Standing, StepsOn, fresh};
ghost use Rattle.importer.specs.Cutting.{Bounds, cut, cut_answers, cut_by, pieces_since};
ghost use Rattle.importer.specs.Laws.{AreCut, ComesFirst, is_failed, is_read_fault, rows_in, starting};
ghost use Rattle.importer.specs.Steps.{input_steps, input_steps_of_source};

/// To carry a carried row again changes nothing, and it fits what the row fits.
#[tactic(auto, using(crate::proofs::CarryLemmas::carried_twice, crate::proofs::CarryLemmas::still_fits))]
pub fn a_carried_row_is_carried()
    ensures again { (fields : List Field) (row : List Cell) → carried fields (carried fields row) ≡ carried fields row }
    ensures fits { (fields : List Field) (row : List Cell) → fits_fields fields row ≡ true → fits_fields fields (carried fields row) ≡ true }
{}

/// Each piece of rows is closed as soon as it is full, each but the last is full, and joined they are the rows.
#[tactic(auto, using(crate::proofs::LawLemmas::pieces_cut, crate::proofs::LawLemmas::pieces_joined))]
pub fn pieces_are_rows()
    ensures cut { (full : List (List Cell) → Bool) (rows : List (List Cell)) → AreCut full (pieces_since full [] rows) }
    ensures joined { (full : List (List Cell) → Bool) (rows : List (List Cell)) → flat_map (λ piece. piece) (pieces_since full [] rows) ≡ rows }
{}

/// The batches of steps that begin with a head have all of their rows, each once and in order.
#[tactic(auto, using(crate::proofs::LawLemmas::rows_kept))]
pub fn no_row_is_lost()
    ensures { (bounds : Bounds) (source : ℕ) (heading : Heading) (steps : List LogStep) → flat_map (λ batch. batch.rows) (cut_by bounds source (Head heading ∷ steps)) ≡ rows_in steps }
{}

/// The batches of a log's bytes have all of its rows, each once and in order; so have those of a source that failed or went
/// on too long.
pub fn no_row_of_a_log_is_lost()
    ensures bytes { (source rows : ℕ) (bytes : List ℕ) (stop : Stop) → flat_map (λ batch. batch.rows) (cut source rows (input_steps bytes stop).given) ≡ rows_in (input_steps bytes stop).given }
    ensures source { (source rows : ℕ) (bytes left : List ℕ) (failed : Bool) → flat_map (λ batch. batch.rows) (cut source rows (input_steps_of_source bytes left failed).given) ≡ rows_in (input_steps_of_source bytes left failed).given }
{}

/// What some calls gave, and then others, is what all of them gave.
pub fn answers_join()
    ensures steps { (a b c : Standing) (la lb lc : Option (List ℕ)) (xs ys : List LogStep) → StepsOn a b la lb xs → StepsOn b c lb lc ys → StepsOn a c la lc (xs ++ ys) }
    ensures batches { (a b c : Importing) (la lb lc : Option (List ℕ)) (xs ys : List Content) → BatchesOn a b la lb xs → BatchesOn b c lb lc ys → BatchesOn a c la lc (xs ++ ys) }
{}

/// What an input or an import gave from its start to an end other than want of memory is all that the definition gives for
/// the source's bytes and what is left of them: the steps, or the batches that they are cut into, and this end.
pub fn all_is_given()
    ensures steps { (bytes left : List ℕ) (end : Option ImportEnd) (given : List LogStep) → StepsOn fresh (Ended end) (Some bytes) (Some left) given → ¬ IsLost (Ended end) → input_steps_of_source bytes left (is_read_fault end) ≡ record { given = given; end = end } }
    ensures batches { (number rows : ℕ) (now : Importing) (bytes left : List ℕ) (end : Option ImportEnd) (given : List Content) → BatchesOn (starting number rows) now (Some bytes) (Some left) given → now.standing ≡ Ended end → ¬ IsLost (Ended end) → cut_answers number rows (input_steps_of_source bytes left (is_read_fault end)) ≡ record { given = given; end = end } }
{}

/// What an import gave from its start, where memory was not wanting, are the first batches of all that the definition gives
/// for the source's bytes and what is left of them.
pub fn what_is_given_comes_first()
    ensures { (number rows : ℕ) (now : Importing) (bytes left : List ℕ) (given : List Content) → BatchesOn (starting number rows) now (Some bytes) (Some left) given → ¬ IsLost now.standing → ComesFirst given (cut_answers number rows (input_steps_of_source bytes left (is_failed now.standing))) }
{}
