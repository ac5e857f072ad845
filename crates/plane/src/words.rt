// The words of a table: where its tiles stand in it, and what length and sizes are a table's.
ghost use Rattle.std.specs.Prelude.{◌≡◌, ◌+◌, ◌-◌, ◌*◌, ◌<◌, ◌≤◌, length, get_or};
ghost use Rattle.plane.specs.Words.{word, tile_of, room_in, TableLength, InRange, Says};

use crate::tile::Tile;

// Word k of tile i.
pub fn word_at(t: &[u16], i: usize, k: usize) -> u16
    requires { 4 + 9 * i + k < length t.now }
    ensures { result ≡ word t.now i k }
{
    t[4 + 9 * i + k]
}

// Word i of the header, and 0 past the end of the slice.
pub fn header_word(t: &[u16], i: usize) -> u16
    ensures { result ≡ get_or t.now i 0 }
{
    t.get(i).copied().unwrap_or(0)
}

// Tile i.
pub fn nth_tile(t: &[u16], i: usize) -> Tile
    requires { 13 + 9 * i ≤ length t.now }
    ensures { result ≡ tile_of t.now i }
{
    Tile {
        left: word_at(t, i, 0),
        bottom: word_at(t, i, 1),
        right: word_at(t, i, 2),
        top: word_at(t, i, 3),
        kind: word_at(t, i, 4),
    }
}

// The room of a table of n words.
pub fn room_in(n: usize) -> usize
    ensures { result ≡ room_in n }
{
    n.saturating_sub(4) / 9
}

// Is n the length of a table?
pub fn table_length(n: usize) -> bool
    ensures { Says result (TableLength n) }
{
    let c = room_in(n);
    1 <= c && c <= 3600 && n == 4 + 9 * c
}

// Are width, height and number of types in their ranges? The rules test the last alone, by kinds_in: a call of it in place of two comparisons
// would be no plainer, since a table's sizes are one statement, InRange, and a rule list's T is another.
pub fn in_range(w: u16, h: u16, t: u16) -> bool
    ensures { Says result (InRange w h t) }
{
    1 <= w && w <= 4096 && 1 <= h && h <= 4096 && 2 <= t && t <= 16
}
