//! Laws of literals.
ghost use Rattle.std.specs.Prelude.{◌≤◌, ℕ, List, count_by, is_some};
ghost use Rattle.query_literal.specs.Literals.{literal_forms};

/// No word has two literal forms: at most one of the seven gives a value for it.
pub fn literals_have_one_form()
    ensures { (word : List ℕ) → count_by is_some (literal_forms word) ≤ 1 }
{}
