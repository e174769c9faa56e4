//! Tables by the ids of tracks: which net holds each track, and since which column.

ghost use Rattle.greedy_router.specs.Turns.{freed_by, moved_by, since_moved};
ghost use Rattle.std.specs.Prelude.{◌≡◌, slice_index, slice_set};

// What a table has for an id, 0 past its end.
pub(crate) fn entry(table: &[u32], id: u32) -> u32
    ensures { result ≡ slice_index table.now id }
{
    match table.get(id as usize) {
        Some(value) => *value,
        None => 0,
    }
}

// Writes an entry, where the table has one of this id.
pub(crate) fn put(table: &mut [u32], id: u32, value: u32)
    ensures { table.new ≡ slice_set table.old id value }
{
    let id = id as usize;
    if id < table.len() {
        table[id] = value;
    }
}

// Notes that tracks are free.
pub(crate) fn free_all(table: &mut [u32], ended: &[u32])
    ensures { table.new ≡ freed_by ended.now table.old }
{
    let mut rest = ended;
    while let Some((id, later)) = rest.split_first() {
        put(table, *id, 0);
        rest = later;
    }
}

// Carries the nets of tracks to others.
pub(crate) fn carry_all(table: &mut [u32], moves: &[(u32, u32)])
    ensures { table.new ≡ moved_by moves.now table.old }
{
    let mut rest = moves;
    while let Some((pair, later)) = rest.split_first() {
        let net = entry(table, pair.0);
        put(table, pair.0, 0);
        put(table, pair.1, net);
        rest = later;
    }
}

// Notes a column as that since when the tracks are held to which nets are carried.
pub(crate) fn note_moves(since: &mut [u32], moves: &[(u32, u32)], column: u32)
    ensures { since.new ≡ since_moved column moves.now since.old }
{
    let mut rest = moves;
    while let Some((pair, later)) = rest.split_first() {
        put(since, pair.1, column);
        rest = later;
    }
}
