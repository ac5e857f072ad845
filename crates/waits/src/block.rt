// A piece of a window: a block of 16 by 16 squares.

// A piece by column and row, counted from the window's lower left corner.
#[derive(Clone, Copy, PartialEq, Eq)]
pub struct Block {
    pub x: u16,
    pub y: u16,
}
