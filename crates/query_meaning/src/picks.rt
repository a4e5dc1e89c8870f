//! Which columns a name picks.
ghost use Rattle.std.specs.Prelude.{◌≡◌, ◌+◌, ◌<◌, ◌≤◌, ◌^◌, length, drop, slice_index};
ghost use Rattle.std.specs.Str.{bytes_eq};
ghost use Rattle.query_meaning.specs.Picks.{full_name, is_named};

/// Whether path, dot and column are the name, or end with a dot and the name.
pub fn is_named(path: &[u8], column: &[u8], name: &[u8]) -> bool
    ensures { result ≡ is_named path.now column.now name.now }
{
    let full = path.len() + 1 + column.len();
    if name.len() > full {
        return false;
    }
    let at = full - name.len();
    if at == 0 {
        return stands_at(path, column, 0, name);
    }
    if full_byte(path, column, at - 1) != b'.' {
        return false;
    }
    stands_at(path, column, at, name)
}

// Whether the full name of the column ends, from `at` on, with the name, which is as long.
fn stands_at(path: &[u8], column: &[u8], at: usize, name: &[u8]) -> bool
    requires { at + length name.now ≡ length (full_name path.now column.now) }
    ensures { result ≡ bytes_eq name.now (drop at (full_name path.now column.now)) }
{
    for (i, byte) in name.iter().enumerate() {
        if *byte != full_byte(path, column, at + i) {
            return false;
        }
    }
    true
}

// The byte at a place of path, dot and column.
fn full_byte(path: &[u8], column: &[u8], at: usize) -> u8
    requires { at < length (full_name path.now column.now) }
    ensures { result ≡ slice_index (full_name path.now column.now) at }
{
    if at < path.len() {
        return path[at];
    }
    let behind = at - path.len();
    if behind == 0 {
        return b'.';
    }
    column[behind - 1]
}
