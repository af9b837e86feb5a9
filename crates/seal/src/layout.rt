// The sizes of a block, each once; specs/Seal.antt says the same.

// Every block has so many bytes.
pub const SIZE: usize = 512;
// Its check stands after so many, in two bytes; the last byte.
pub(crate) const BODY: usize = 510;

pub(crate) const LAST: usize = 511;
