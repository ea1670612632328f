// Cells passed as bytes, as a C program holds them (document 01, "The parts we ship"): two bytes each, low byte first.
ghost use Rattle.std.specs.Prelude.{◌≡◌, ◌/◌, ◌<◌, ◌≤◌, length};
ghost use Rattle.packed.specs.Bytes.{cell_in, cells_of_bytes, cell_count};

// Counts the cells that a table of so many states has in so many bytes: 32 for each state; or none, so that check 4 refuses it, if there are more
// than 4,096 states or not exactly 64 bytes for each.
#[tactic(auto, unfolding(crate::specs::Bytes::cell_count))]
pub fn count(states: usize, bytes: usize) -> usize
    ensures { result ≡ cell_count states bytes }
{
    if states <= 4096 && bytes == states * 64 {
        states * 32
    } else {
        0
    }
}

// Reads the cell at index k. `get` never gives `None` here: without its test the compiler makes one call of memcpy of the loop that unpacks a table,
// and the archive promises to need memset alone.
pub fn at(bytes: &[u8], k: usize) -> u16
    requires { k < length bytes.now / 2 }
    ensures { result ≡ cell_in bytes.now k }
{
    match bytes.get(2 * k + 1) {
        Some(high) => u16::from_le_bytes([bytes[2 * k], *high]),
        None => 65535,
    }
}

// Writes the cells of a table of so many states to the start of the room, and returns them.
pub fn unpack<'room>(states: usize, bytes: &[u8], room: &'room mut [u16]) -> &'room [u16]
    requires { cell_count states (length bytes.now) ≤ length room.old }
    ensures { result.now ≡ cells_of_bytes states bytes.now }
{
    let cells = &mut room[..count(states, bytes.len())];
    for (k, cell) in cells.iter_mut().enumerate() {
        *cell = at(bytes, k);
    }
    cells
}
