// A dot as a character.
ghost use Rattle.std.specs.Prelude.{◌≡◌};
ghost use Rattle.printed.specs.Text.{dot_mark};

/// `.` for a dot that is off, `#` for one that is on.
pub fn dot_mark(dot: u8) -> u8
    ensures { result ≡ dot_mark dot }
{
    if dot == 0 { b'.' } else { b'#' }
}
