// Bytes stored one after the other in a plane.
ghost use Rattle.std.specs.Prelude.{◌≡◌, ◌+◌, ◌≤◌, length, replicate};
ghost use Rattle.std.proofs.lemmas.List.Edits.{sets};
ghost use Rattle.ground.specs.Lists.{zeros};

// Functions, here and below, of one slice method each: inlined, every operation would owe `sets` by itself.
// Bytes of the book, to a place and on.
pub(crate) fn store(plane: &mut [u8], at: usize, bytes: &[u8])
    requires { at + length bytes.now ≤ length plane.old }
    ensures { plane.new ≡ sets plane.old at bytes.now }
{
    plane[at..at + bytes.len()].copy_from_slice(bytes);
}

// One byte n times from a place on.
pub(crate) fn fill(plane: &mut [u8], at: usize, n: usize, value: u8)
    requires { at + n ≤ length plane.old }
    ensures { plane.new ≡ sets plane.old at (replicate n value) }
{
    plane[at..at + n].fill(value);
}

// Beside ground's `clear`, whose clause says `build`: the planes' definitions speak of `zeros`.
// Zeros, all of it.
#[tactic(auto, unfolding(ground::specs::Lists::zeros))]
pub(crate) fn clear(plane: &mut [u8])
    ensures { plane.new ≡ zeros (length plane.old) }
{
    plane.fill(0);
}
