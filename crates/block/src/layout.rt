// The numbers of the layout, each once; specs/Layout.antt says the same, and rules/specs/Reach of the most pieces.

// 52 4F 4F 4D
pub(crate) const NAME: [u8; 4] = [0x52, 0x4F, 0x4F, 0x4D];

pub(crate) const EDITION: u8 = 1;
// The most pieces of a room.
pub const MOST: usize = 126;

// The length of a run's numbers in its block, bytes 2 to 15.
pub(crate) const RUN_BODY: usize = 14;

// Byte 0 of a piece block, and of a run block.
pub const PIECE: u8 = 1;

pub(crate) const RUN: u8 = 2;
