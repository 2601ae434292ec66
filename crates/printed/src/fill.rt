// Memory and characters as a program finds them.
ghost use Rattle.std.specs.Prelude.{◌≡◌, length};
ghost use Rattle.ground.specs.Lists.{build, zeros};
ghost use Rattle.printed.specs.Printed.{character_row, characters};

// Row v of code k is (k+v) mod 256.
fn fill_characters(rom: &mut [u8])
    ensures { rom.new ≡ build (length rom.old) character_row }
{
    for (i, row) in rom.iter_mut().enumerate() {
        *row = ((i / 8 + i % 8) % 256) as u8;
    }
}

/// The character ROM of the bench.
pub fn character_rom() -> [u8; 1024]
    ensures value { result ≡ characters }
    ensures value_2 { 1024 ≡ length result }
{
    let mut rom = [0u8; 1024];
    fill_characters(&mut rom);
    rom
}

// For a large room of which a proof is asked: the length is a fact here, where `[0; N]` in place would be counted out.
/// N zeros.
pub fn zeroed<const N: usize>() -> [u8; N]
    ensures value { result ≡ zeros N }
    ensures size { N ≡ length result }
{
    [0; N]
}

/// Memory that nothing was stored in.
pub fn empty_memory() -> [u8; 65536]
    ensures value { result ≡ zeros 65536 }
    ensures value_2 { 65536 ≡ length result }
{
    zeroed()
}
