// Lent buffers.
#![tactic(auto)]

ghost use Rattle.std.specs.Prelude.{◌≡◌, length, replicate};

// One number at every place.
pub fn fill(buffer: &mut [u32], x: u32)
    ensures { buffer.new ≡ replicate (length buffer.old) x }
{
    buffer.fill(x);
}
