// A screen rehearsed: its stream written, run on a controller, and the frame painted.
ghost use Rattle.std.specs.Prelude.{◌≡◌, OnErr};
ghost use Rattle.rehearsal.specs.Rehearsed.{rehearsed_reply, rehearsed_all, rehearse_of, Outright};

use controller::run::run_stopping;
use display::frame::paint;
use state::panel::Panel;
use state::refusal::{Refusal, Refused};
use state::registers::Registers;
use writer::write::write;

/// The pairs that were run, and the registers then.
#[derive(Clone, Copy, Debug, PartialEq, Eq)]
pub struct Rehearsed {
    pub pairs: usize,
    pub registers: Registers,
}

// Buffers as parameters: docs/PROMISES.md names this, and each one is lent by a caller that owns it. A door of its own beside display's
// `admit`, which takes these two tests as flags.
/// Writes a screen's stream into `room` and runs it from these registers: `memory` of 65,536 bytes and `rom` of 1,024; `frame`, a byte for
/// each eight dots, is then the picture. Refused, with every lent buffer as it was: `Invalid` panel or registers, `WrongLength`, and what
/// `write` refuses.
pub fn rehearse(
    panel: Panel,
    registers: Registers,
    memory: &mut [u8],
    rom: &[u8],
    book: &[u8],
    number: usize,
    room: &mut [u8],
    frame: &mut [u8],
) -> Result<Rehearsed, Refused>
    ensures frame_after { rehearsed_all (rehearsed_reply registers result) memory.new room.new frame.new
        ≡ rehearse_of panel registers memory.old rom.now book.now number room.old frame.old }
    ensures outright { Outright panel registers memory.old rom.now book.now number (rehearsed_reply registers result) memory.new frame.new }
    ensures refused { OnErr result ((memory.new ≡ memory.old) × (room.new ≡ room.old) × (frame.new ≡ frame.old)) }
{
    let valid = panel.valid() & registers.valid();
    if !valid {
        return Err(Refusal::Invalid.into());
    }
    let size = panel.frame_size();
    let fits = (memory.len() == 65536) & (rom.len() == 1024) & (frame.len() == size);
    if !fits {
        return Err(Refusal::WrongLength.into());
    }
    let written = write(panel, book, number, room)?;
    let end = 2 * written;
    // neither answers nor the run's number are looked at: a written stream reads nothing, and its whole picture is promised
    let mut none = [0u8; 1];
    let ran = run_stopping(
        panel,
        registers,
        memory,
        rom,
        &room[..end],
        written,
        &mut none,
    );
    let shown = ran.registers;
    paint(panel, shown, memory, rom, frame)?;
    Ok(Rehearsed {
        pairs: written,
        registers: shown,
    })
}
