ghost use Rattle.std.specs.Prelude.{◌≡◌, ℕ, ◌+◌, ◌<◌, ◌≤◌, ◌&&◌, ◌||◌, Bool, List, length, take, drop, Option, IfOk, true, nat_eq, nat_lt};
ghost use Rattle.bits_law.specs.Keys.{answers};
ghost use Rattle.digit_index.specs.Digits.{columns_of, HoldsDigit};
ghost use Rattle.digit_index.specs.declared.coding.Coding.TheVariants.{Equality};

use crate::coding::Coding;
use bits_law::{Bits, Table};
use std::alloc::AllocError;

/// All present rows, or none.
pub(crate) fn all_or_none<B: Bits>(present: &B, all: bool) -> Result<B, AllocError>
    ensures rows { IfOk result (λ b. length (B.bits b) ≡ length (B.bits present.now)) }
    ensures keys { IfOk result (λ b. (keys : List (Option ℕ)) → B.bits present.now ≡ answers (λ _. true) keys → B.bits b ≡ answers (λ _. all) keys) }
{
    if all {
        present.duplicate()
    } else {
        present.and_not(present)
    }
}

/// The rows of the first `count` values of an equality-coded digit, whose columns begin at `from`.
fn any_of<B: Bits>(
    table: &Table<B>,
    from: usize,
    present: &B,
    base: u16,
    count: usize,
) -> Result<B, AllocError>
    requires within { count ≤ base }
    requires room { from ≤ 4096 }
    requires inside { from + base ≤ length table.now.columns }
    requires rows { length (B.bits present.now) ≡ length table.now.present }
    ensures rows { IfOk result (λ b. length (B.bits b) ≡ length (B.bits present.now)) }
    ensures keys { IfOk result (λ b. (keys : List (Option ℕ)) (digit : ℕ → ℕ) → HoldsDigit Equality base digit (B.bits present.now) (take base (drop from table.now.columns)) keys → B.bits b ≡ answers (λ key. nat_lt (digit key) count) keys) }
{
    let mut rows = all_or_none(present, false)?;
    for j in 0..count {
        let column = table.column(from + j)?;
        rows = rows.or(&column)?;
    }
    Ok(rows)
}

/// The rows whose digit is below `value`. The digit's columns begin at `from`.
fn below<B: Bits>(
    table: &Table<B>,
    from: usize,
    present: &B,
    coding: Coding,
    base: u16,
    value: usize,
) -> Result<B, AllocError>
    requires room { from ≤ 4096 }
    requires inside { from + columns_of coding base ≤ length table.now.columns }
    requires some { 1 ≤ base }
    requires within { value ≤ base }
    requires rows { length (B.bits present.now) ≡ length table.now.present }
    ensures rows { IfOk result (λ b. length (B.bits b) ≡ length (B.bits present.now)) }
    ensures keys { IfOk result (λ b. (keys : List (Option ℕ)) (digit : ℕ → ℕ) → HoldsDigit coding base digit (B.bits present.now) (take (columns_of coding base) (drop from table.now.columns)) keys → B.bits b ≡ answers (λ key. nat_lt (digit key) value) keys) }
{
    match coding {
        Coding::Equality => any_of(table, from, present, base, value),
        Coding::Range => {
            if value == 0 {
                all_or_none(present, false)
            } else if value == base as usize {
                all_or_none(present, true)
            } else {
                table.column(from + (value - 1))
            }
        }
    }
}

/// The rows whose digit is `value`. The digit's columns begin at `from`.
pub(crate) fn equal<B: Bits>(
    table: &Table<B>,
    from: usize,
    present: &B,
    coding: Coding,
    base: u16,
    value: usize,
) -> Result<B, AllocError>
    requires room { from ≤ 4096 }
    requires inside { from + columns_of coding base ≤ length table.now.columns }
    requires within { value < base }
    requires rows { length (B.bits present.now) ≡ length table.now.present }
    ensures rows { IfOk result (λ b. length (B.bits b) ≡ length (B.bits present.now)) }
    ensures keys { IfOk result (λ b. (keys : List (Option ℕ)) (digit : ℕ → ℕ) → HoldsDigit coding base digit (B.bits present.now) (take (columns_of coding base) (drop from table.now.columns)) keys → B.bits b ≡ answers (λ key. nat_eq (digit key) value) keys) }
{
    match coding {
        Coding::Equality => table.column(from + value),
        Coding::Range => {
            let most = below(table, from, present, coding, base, value + 1)?;
            let less = below(table, from, present, coding, base, value)?;
            most.and_not(&less)
        }
    }
}

/// The rows whose digit is below `value`, and those of `rows` whose digit is `value`. `rows` are such by their lower
/// digits. The digit's columns begin at `from`.
pub(crate) fn ordered<B: Bits>(
    table: &Table<B>,
    from: usize,
    present: &B,
    coding: Coding,
    base: u16,
    value: usize,
    rows: &B,
) -> Result<B, AllocError>
    requires room { from ≤ 4096 }
    requires inside { from + columns_of coding base ≤ length table.now.columns }
    requires within { value < base }
    requires even { length (B.bits present.now) ≡ length table.now.present }
    requires rows { length (B.bits rows.now) ≡ length (B.bits present.now) }
    ensures rows { IfOk result (λ b. length (B.bits b) ≡ length (B.bits present.now)) }
    ensures keys { IfOk result (λ b. (keys : List (Option ℕ)) (digit : ℕ → ℕ) (lower : ℕ → Bool) → HoldsDigit coding base digit (B.bits present.now) (take (columns_of coding base) (drop from table.now.columns)) keys → B.bits rows.now ≡ answers lower keys → B.bits b ≡ answers (λ key. nat_lt (digit key) value || (nat_lt (digit key) (value + 1) && lower key)) keys) }
{
    let less = below(table, from, present, coding, base, value)?;
    let most = below(table, from, present, coding, base, value + 1)?;
    less.or(&most.and(rows)?)
}
