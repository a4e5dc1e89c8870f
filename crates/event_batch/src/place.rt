//! Where the numbers of a batch lie in its bytes.
ghost use Rattle.std.specs.Prelude.{◌≡◌, length, Some};
ghost use Rattle.std.specs.Option.{option_map};
ghost use Rattle.event_batch.specs.Packings.{IsSpelled, said_in};
ghost use Rattle.event_batch.specs.Reading.{byte_at, number_at};
ghost use Rattle.event_batch.specs.Places.{behind_text, behind_field, behind_fields, source_at, row_count_at};

use byteorder::{ByteOrder, LittleEndian};

/// The number of the source.
pub(crate) fn source_in(bytes: &[u8]) -> u32
    requires { IsSpelled bytes.now }
    ensures { result ≡ (said_in bytes.now).content.source }
{
    match source_at(bytes) {
        Some((source, _)) => source,
        None => unreachable!(),
    }
}

/// The number of rows.
pub(crate) fn row_count_in(bytes: &[u8]) -> u32
    requires { IsSpelled bytes.now }
    ensures { result ≡ length (said_in bytes.now).content.rows }
{
    match row_count_at(bytes) {
        Some((count, _)) => count,
        None => unreachable!(),
    }
}

#[tactic(auto, unfolding(crate::specs::Places::source_at))]
fn source_at(bytes: &[u8]) -> Option<(u32, &[u8])>
    ensures { option_map (λ x. (x.0, x.1.now)) result ≡ source_at bytes.now }
{
    let (_format, rest) = u8_front(bytes)?;
    u32_front(rest)
}

#[tactic(auto, unfolding(crate::specs::Places::row_count_at))]
fn row_count_at(bytes: &[u8]) -> Option<(u32, &[u8])>
    ensures { option_map (λ x. (x.0, x.1.now)) result ≡ row_count_at bytes.now }
{
    let (_source, rest) = source_at(bytes)?;
    let rest = behind_text(rest)?;
    let (count, rest) = u16_front(rest)?;
    let rest = behind_columns(count, rest)?;
    u32_front(rest)
}

fn behind_columns(count: u16, bytes: &[u8]) -> Option<&[u8]>
    ensures { option_map (λ x. x.now) result ≡ behind_fields count bytes.now }
{
    let mut rest = bytes;
    for _ in 0..count {
        rest = behind_column(rest)?;
    }
    Some(rest)
}

#[tactic(auto, unfolding(crate::specs::Places::behind_field))]
fn behind_column(bytes: &[u8]) -> Option<&[u8]>
    ensures { option_map (λ x. x.now) result ≡ behind_field bytes.now }
{
    let (_kind, rest) = u8_front(bytes)?;
    behind_text(rest)
}

#[tactic(auto, unfolding(crate::specs::Places::behind_text))]
fn behind_text(bytes: &[u8]) -> Option<&[u8]>
    ensures { option_map (λ x. x.now) result ≡ behind_text bytes.now }
{
    let (count, rest) = u32_front(bytes)?;
    if rest.len() < count as usize {
        return None;
    }
    Some(&rest[count as usize..])
}

#[tactic(auto, unfolding(crate::specs::Reading::byte_at))]
fn u8_front(bytes: &[u8]) -> Option<(u8, &[u8])>
    ensures { option_map (λ x. (x.0, x.1.now)) result ≡ byte_at bytes.now }
{
    match bytes {
        [] => None,
        [byte, rest @ ..] => Some((*byte, rest)),
    }
}

#[tactic(auto, unfolding(crate::specs::Reading::number_at))]
fn u16_front(bytes: &[u8]) -> Option<(u16, &[u8])>
    ensures { option_map (λ x. (x.0, x.1.now)) result ≡ number_at 2 bytes.now }
{
    if bytes.len() < 2 {
        return None;
    }
    Some((LittleEndian::read_u16(bytes), &bytes[2..]))
}

#[tactic(auto, unfolding(crate::specs::Reading::number_at))]
fn u32_front(bytes: &[u8]) -> Option<(u32, &[u8])>
    ensures { option_map (λ x. (x.0, x.1.now)) result ≡ number_at 4 bytes.now }
{
    if bytes.len() < 4 {
        return None;
    }
    Some((LittleEndian::read_u32(bytes), &bytes[4..]))
}
