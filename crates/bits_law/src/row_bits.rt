ghost use Rattle.std.specs.Prelude.{◌≡◌, ℕ, ◌+◌, ◌-◌, ◌*◌, ◌^◌, ◌<◌, ◌≤◌, Bool, length, get_or};
ghost use Rattle.bits_law.specs.Numbers.{has_bit};

/// The bits that a key sets in a table, column by column.
pub trait RowBits {
    /// Whether a column's bit is set.
    ghost bit: { Self → ℕ → Bool };

    /// Whether the bit of `column` is set.
    fn bit(&self, column: usize) -> bool
        ensures { result ≡ bit self.now column };

    /// The bits of the 64 columns from 64 `part` on, the first column's highest.
    fn word(&self, part: usize) -> u64
        requires { part < 2 ^ 57 }
        ensures { (j : ℕ) → j < 64 → has_bit result (63 - j) ≡ bit self.now (64 * part + j) }
    {
        let mut word = 0;
        for j in 0..64 {
            word = 2 * word + self.bit(64 * part + j) as u64;
        }
        word
    }

    /// Makes `words` the bits of the first columns, 64 in each word, the first column's highest.
    fn words(&self, words: &mut [u64])
        requires { length words.old ≤ 2 ^ 57 }
        ensures long { length words.new ≡ length words.old }
        ensures bits { (part j : ℕ) → part < length words.old → j < 64 → has_bit (get_or words.new part 0) (63 - j) ≡ bit self.now (64 * part + j) }
    {
        for part in 0..words.len() {
            words[part] = self.word(part);
        }
    }
}
