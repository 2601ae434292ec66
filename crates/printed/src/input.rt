// The panel, a byte and a book out of a program's input, and a number out of a list.
ghost use Rattle.std.specs.Prelude.{◌≡◌, get_or, take, drop};
ghost use Rattle.printed.specs.Printed.{panel_in};

use state::panel::Panel;

// The body of contents' `byte_at` and of `number_in` below: docs/PROMISES.md names each.
/// A byte of the input, 0 where it is missing.
pub fn byte_in(input: &[u8], at: usize) -> u8
    ensures { result ≡ get_or input.now at 0 }
{
    input.get(at).copied().unwrap_or(0)
}

/// C, L, w; that it is in two halves is said beside them.
pub fn panel_in(input: &[u8], dual: bool) -> Panel
    ensures { result ≡ panel_in dual input.now }
{
    Panel {
        columns: byte_in(input, 0) as usize,
        lines: byte_in(input, 1) as usize,
        width: byte_in(input, 2) as usize,
        dual,
    }
}

/// The input behind its first bytes, nothing where it ends before.
pub fn rest_in(input: &[u8], head: usize) -> &[u8]
    ensures { result.now ≡ drop head input.now }
{
    &input[head.min(input.len())..]
}

/// The input's first bytes, all of it where it ends before.
pub fn start_in(input: &[u8], most: usize) -> &[u8]
    ensures { result.now ≡ take most input.now }
{
    &input[..most.min(input.len())]
}

/// A number of a list, 0 past its end.
pub fn number_in(list: &[usize], at: usize) -> usize
    ensures { result ≡ get_or list.now at 0 }
{
    list.get(at).copied().unwrap_or(0)
}
