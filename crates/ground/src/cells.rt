// A row of cells packed into bytes.
ghost use Rattle.std.specs.Prelude.{◌≡◌, ◌*◌, ◌%◌, ◌<◌, length, slice_index};
ghost use Rattle.ground.specs.Packing.{row_bytes, row_in, Packable, pack_of};

// The low six bits of a cell, 0 past the last.
fn six(cells: &[u8], c: usize) -> u8
    ensures { result ≡ slice_index cells.now c % 64 }
{
    cells.get(c).copied().unwrap_or(0) % 64
}

// Cells of six dots: the dots held from one cell and the first of the next are a byte. Four cells are three bytes, and none is held; then
// the rest, padded.
fn pack_sixes(cells: &[u8], out: &mut [u8])
    requires packable { Packable 6 cells.now }
    requires out_len { length out.old ≡ row_bytes (length cells.now) 6 }
    ensures { out.new ≡ row_in 6 cells.now }
{
    let mut c: usize = 0;
    let mut at: usize = 0;
    // by index: four cells go into three bytes, and behind `chunks_exact_mut` a proof knows nothing of what is written
    while c + 4 <= cells.len() {
        let mut held = cells[c] % 64;
        let two = cells[c + 1] % 64;
        let three = cells[c + 2] % 64;
        let four = cells[c + 3] % 64;
        out[at] = held * 4 + two / 16;
        held = two % 16;
        out[at + 1] = held * 16 + three / 4;
        held = three % 4;
        out[at + 2] = held * 64 + four;
        c += 4;
        at += 3;
    }
    let one = six(cells, c);
    let two = six(cells, c + 1);
    let three = six(cells, c + 2);
    let end = out.len();
    if at < end {
        out[at] = one * 4 + two / 16;
        if at + 1 < end {
            out[at + 1] = two % 16 * 16 + three / 4;
            if at + 2 < end {
                out[at + 2] = three % 4 * 64;
            }
        }
    }
}

// A cell of eight dots is a byte.
fn pack_eights(cells: &[u8], out: &mut [u8])
    requires { length out.old ≡ row_bytes (length cells.now) 8 }
    ensures { out.new ≡ row_in 8 cells.now }
{
    out.copy_from_slice(cells);
}

// A row of cells of 6 or 8 dots.
fn pack_row(width: usize, cells: &[u8], out: &mut [u8])
    requires packable { Packable width cells.now }
    requires out_len { length out.old ≡ row_bytes (length cells.now) width }
    ensures { out.new ≡ row_in width cells.now }
{
    if width == 6 {
        pack_sixes(cells, out);
    } else {
        pack_eights(cells, out);
    }
}

/// Cells of 6 or 8 dots, at most 80 of them, into a buffer of just their bytes; else the buffer stays as it was.
pub fn pack(width: usize, cells: &[u8], out: &mut [u8])
    ensures { out.new ≡ pack_of width cells.now out.old }
{
    if ((width == 6) | (width == 8)) & (cells.len() <= 80) {
        // no `div_ceil`: it divides by a value, and nothing under the painter divides
        let bytes = (cells.len() * width + 7) / 8;
        if out.len() == bytes {
            pack_row(width, cells, out);
        }
    }
}
