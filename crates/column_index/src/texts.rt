//! Columns of strings and enums.
ghost use Rattle.std.specs.Prelude.{◌≡◌, ◌+◌, ◌<◌, ◌≤◌, ◌^◌, ◌++◌, ◌&&◌, not, length, IfOk, OnOk, Option, Some, List, [], min, nat_le, IsTrue};
ghost use Rattle.bits_law.specs.Keys.{meets, with_key};
ghost use Rattle.string_index.specs.Texts.{same_start, short_length};
ghost use Rattle.vast_value.specs.declared.cell.Cell.{Cell};
ghost use Rattle.vast_value.specs.declared.cell.Cell.TheVariants.{One};
ghost use Rattle.vast_value.specs.declared.kind.Kind.TheVariants as kind;
ghost use Rattle.column_index.specs.Columns.{AreOf, Answers, text_of, text_key};
ghost use Rattle.column_index.specs.Kept.{TextsStand, AreAnswers, is_text};

use crate::answered::nothing;
use crate::asked::{TextAsked, text_asked};
use crate::kept::{Bitmap, Pair, Texts};
use bits_law::{Bits, BitsEnd};
use query_meaning::{Rel, goes_with};
use std::alloc::{AllocError, Global};
use string_index::StringIndex;
use vast_value::{Elem, Value};

/// The bytes of a text, and none of another value.
fn text_of(value: &Value) -> &[u8]
    ensures { result.now ≡ text_of value.now }
{
    match value {
        Value::Text(text) | Value::Name(text) => text.as_slice(),
        _ => &[],
    }
}

impl Texts {
    pub(crate) fn new(alloc: Global) -> Result<Self, AllocError>
        ensures stands { IfOk result (λ t. TextsStand t []) }
        ensures rows { IfOk result (λ t. length t.index.table.present ≡ 0) }
    {
        Ok(Texts {
            index: StringIndex::new(alloc)?,
        })
    }

    /// Puts a value at `row`.
    pub(crate) fn put(&mut self, row: u64, value: &Value) -> Result<(), BitsEnd>
        requires { length self.old.index.table.present ≤ row }
        ensures stands { OnOk result ((cells : List (Option Cell)) → length cells ≤ row → TextsStand self.old cells → TextsStand self.new (with_key cells row (One value.now))) }
        ensures rows { length self.new.index.table.present ≤ row + 1 }
    {
        let key = text_of(value);
        self.index.put(row, key)?;
        Ok(())
    }

    /// Adds the rows of another, this one having `rows` rows.
    pub(crate) fn append(self, rows: u64, other: &Self) -> Result<Self, BitsEnd>
        requires { length self.index.table.present ≤ rows }
        ensures stands { IfOk result (λ t. (cells more : List (Option Cell)) → length cells ≡ rows → TextsStand self cells → TextsStand other.now more → TextsStand t (cells ++ more)) }
        ensures rows { IfOk result (λ t. length t.index.table.present ≡ rows + length other.now.index.table.present) }
    {
        let Texts { index } = self;
        let index = index.pad(rows)?;
        let index = index.append(&other.index)?;
        Ok(Texts { index })
    }

    /// The rows where a relation to the literal surely holds and may hold, of cells of a kind.
    pub(crate) fn ask(
        &self,
        alloc: Global,
        elem: Elem,
        rel: Rel,
        literal: &Value,
    ) -> Result<Pair, AllocError>
        requires { IsTrue (is_text elem) }
        ensures { IfOk result (λ pair. (cells : List (Option Cell)) → AreOf (kind.One elem) cells → TextsStand self.now cells → AreAnswers pair rel literal.now cells) }
    {
        if !goes_with(literal.elem(), elem) {
            return Ok(nothing(alloc));
        }
        let text = text_of(literal);
        match text_asked(rel) {
            TextAsked::Equal => {
                let pair = self.equal(text)?;
                Ok(pair)
            }
            TextAsked::Differs => {
                let pair = self.differs(text)?;
                Ok(pair)
            }
            TextAsked::Contains => {
                let pair = self.contains(alloc, text)?;
                Ok(pair)
            }
            TextAsked::Never => Ok(nothing(alloc)),
        }
    }

    fn equal(&self, text: &[u8]) -> Result<Pair, AllocError>
        ensures sure { IfOk result (λ pair. (cells : List (Option Cell)) → TextsStand self.now cells → Answers pair.sure (λ x. meets (λ key. same_start key text.now && nat_le (length text.now) 8) (text_key x)) cells) }
        ensures maybe { IfOk result (λ pair. (cells : List (Option Cell)) → TextsStand self.now cells → Answers pair.maybe (λ x. meets (λ key. same_start key text.now) (text_key x)) cells) }
    {
        let pair = self.index.equal(text)?;
        Ok(Pair {
            sure: pair.0,
            maybe: pair.1,
        })
    }

    fn differs(&self, text: &[u8]) -> Result<Pair, AllocError>
        ensures sure { IfOk result (λ pair. (cells : List (Option Cell)) → TextsStand self.now cells → Answers pair.sure (λ x. meets (λ key. not (same_start key text.now)) (text_key x)) cells) }
        ensures maybe { IfOk result (λ pair. (cells : List (Option Cell)) → TextsStand self.now cells → Answers pair.maybe (λ x. meets (λ key. not (same_start key text.now && nat_le (length text.now) 8)) (text_key x)) cells) }
    {
        let set = self.index.present()?;
        let pair = self.index.equal(text)?;
        let sure = set.and_not(&pair.1)?;
        let maybe = set.and_not(&pair.0)?;
        Ok(Pair { sure, maybe })
    }

    fn contains(&self, alloc: Global, text: &[u8]) -> Result<Pair, AllocError>
        ensures sure { IfOk result (λ pair. (cells : List (Option Cell)) → TextsStand self.now cells → Answers pair.sure (λ x. meets (λ key. nat_le (length text.now) 0) (text_key x)) cells) }
        ensures maybe { IfOk result (λ pair. (cells : List (Option Cell)) → TextsStand self.now cells → Answers pair.maybe (λ x. meets (λ key. nat_le (min (length text.now) 255) (short_length key)) (text_key x)) cells) }
    {
        let sure = self.anything(alloc, text.is_empty())?;
        let maybe = self.index.as_long(text.len() as u64)?;
        Ok(Pair { sure, maybe })
    }

    /// The rows that have a text, if it holds of all of them, or none.
    fn anything(&self, alloc: Global, holds: bool) -> Result<Bitmap, AllocError>
        ensures { IfOk result (λ bits. (cells : List (Option Cell)) → TextsStand self.now cells → Answers bits (λ x. meets (λ key. holds) (text_key x)) cells) }
    {
        if holds {
            let rows = self.index.present()?;
            return Ok(rows);
        }
        Ok(Bitmap::empty(alloc))
    }
}
