// What a command does at the pointer. The bus goes by value, since the run's loop keeps it in the machine's registers: with one that is lent
// single stores were a fifth slower.
ghost use Rattle.std.specs.Prelude.{◌≡◌, slice_index, slice_set};
ghost use Rattle.ground.specs.Bytes.{with_bit};
ghost use Rattle.effects.specs.Effect.{with_pointer, with_latch, moved_of};

use crate::effect::moved;
use ground::bytes::with_bit;
use state::registers::{Bus, Move};

// All 65,536 bytes are there in a run, and the compiler then drops the test.
/// The byte at an address; 0 behind the memory's end.
pub fn byte_there(memory: &[u8], address: u16) -> u8
    ensures { result ≡ slice_index memory.now address }
{
    let at = address as usize;
    if at < memory.len() { memory[at] } else { 0 }
}

// No `get_mut`: behind it a proof knows the memory's length and no byte of it.
//
// A byte stored at an address; nothing behind the memory's end.
fn store_there(memory: &mut [u8], address: u16, byte: u8)
    ensures { memory.new ≡ slice_set memory.old address byte }
{
    let at = address as usize;
    if at < memory.len() {
        memory[at] = byte;
    }
}

// Copied, then set, here and below, as in `usual::part`, where `..bus` was slower.
/// A byte stored where the pointer stands, the pointer moved.
pub fn put(bus: Bus, memory: &mut [u8], byte: u8, direction: Move) -> Bus
    ensures pointer { result ≡ with_pointer bus (moved_of direction bus.pointer) }
    ensures stored { memory.new ≡ slice_set memory.old bus.pointer byte }
{
    let pointer = bus.pointer;
    let mut next = bus;
    store_there(memory, pointer, byte);
    next.pointer = moved(direction, pointer);
    next
}

/// The byte where the pointer stands in the latch, the pointer moved.
pub fn fetch(bus: Bus, memory: &[u8], direction: Move) -> Bus
    ensures { result ≡ with_pointer (with_latch bus (slice_index memory.now bus.pointer)) (moved_of direction bus.pointer) }
{
    let pointer = bus.pointer;
    let mut next = bus;
    next.latch = byte_there(memory, pointer);
    next.pointer = moved(direction, pointer);
    next
}

/// A bit of the byte where the pointer stands, set or reset.
pub fn change(pointer: u16, memory: &mut [u8], bit: u8, on: bool)
    ensures { memory.new ≡ slice_set memory.old pointer (with_bit (slice_index memory.old pointer) bit on) }
{
    let byte = byte_there(memory, pointer);
    store_there(memory, pointer, with_bit(byte, bit, on));
}
