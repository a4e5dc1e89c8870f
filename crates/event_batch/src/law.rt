//! What is promised of spellings.
ghost use Rattle.std.specs.Prelude.{◌≡◌, IsTrue};
ghost use Rattle.event_batch.specs.declared.batch.Batch.{Batch};
ghost use Rattle.event_batch.specs.declared.format.Format.TheVariants.{Second};
ghost use Rattle.event_batch.specs.Contents.{Spelled, content_of, is_content, is_spellable};
ghost use Rattle.event_batch.specs.Spelling.{spelling};

/// A law on the definition by which `encode` answers, and no code: bytes are the spelling of one format and content,
/// two batches with the same bytes are one batch, and so are two of one content.
pub fn one_spelling()
    ensures spelled { (s t : Spelled) → IsTrue (is_spellable s) → IsTrue (is_spellable t) → spelling s ≡ spelling t → s ≡ t }
    ensures bytes { (a b : Batch) → spelling (record { format = Second; content = content_of a }) ≡ spelling (record { format = Second; content = content_of b }) → a ≡ b }
    ensures content { (a b : Batch) → content_of a ≡ content_of b → a ≡ b }
{}

/// A law, and no code: what a batch says is a batch's content, and format 2 can spell it.
pub fn each_batch_is_spellable()
    ensures content { (b : Batch) → IsTrue (is_content (content_of b)) }
    ensures spellable { (b : Batch) → IsTrue (is_spellable (record { format = Second; content = content_of b })) }
{}
