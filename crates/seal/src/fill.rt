// Zeros into a lent list.
ghost use Rattle.std.specs.Prelude.{◌≡◌};
ghost use Rattle.seal.specs.Scan.{cleared};

// Zeros from here to the end of a list.
pub fn clear(bytes: &mut [u8], from: usize)
    ensures { bytes.new ≡ cleared from bytes.old }
{
    if from < bytes.len() {
        bytes[from..].fill(0);
    }
}
