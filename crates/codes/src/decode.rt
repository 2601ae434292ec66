// The 66 defined codes, by their high and low four bits.
ghost use Rattle.std.specs.Prelude.{◌≡◌};
ghost use Rattle.codes.specs.Command.{register_of, control_of, mode_of, display_mode_of, height_of, auto_code_of, transfer_of, sight_code_of, bit_code_of, decode_of};
ghost use Rattle.codes.specs.Decoded.{decoded};
ghost use Rattle.codes.specs.Numbers.{code_number, decoded_number};

use super::command::Command;
use ground::bytes::bit;
use state::registers::{Auto, Combination, DisplayBits, Move, Target};

// One table for each high four bits, here and below; `low` is the low four.
fn register(low: u8) -> Option<Command>
    ensures { decoded result ≡ register_of low }
{
    match low {
        1 => Some(Command::Set(Target::Cursor)),
        2 => Some(Command::Set(Target::Offset)),
        4 => Some(Command::Set(Target::Pointer)),
        _ => None,
    }
}

fn control(low: u8) -> Option<Command>
    ensures { decoded result ≡ control_of low }
{
    match low {
        0 => Some(Command::Set(Target::TextHome)),
        1 => Some(Command::Set(Target::TextArea)),
        2 => Some(Command::Set(Target::GraphicHome)),
        3 => Some(Command::Set(Target::GraphicArea)),
        _ => None,
    }
}

fn mode(low: u8) -> Option<Command>
    ensures { decoded result ≡ mode_of low }
{
    let external = bit(low, 3) == 1;
    let kind = low % 8;
    match kind {
        0 => Some(Command::Mode(external, Combination::Or)),
        1 => Some(Command::Mode(external, Combination::Exor)),
        3 => Some(Command::Mode(external, Combination::And)),
        4 => Some(Command::Mode(external, Combination::Attribute)),
        _ => None,
    }
}

fn display_mode(low: u8) -> Option<Command>
    ensures { decoded result ≡ display_mode_of low }
{
    Some(Command::DisplayMode(DisplayBits {
        graphic: bit(low, 3) == 1,
        text: bit(low, 2) == 1,
        cursor: bit(low, 1) == 1,
        blink: bit(low, 0) == 1,
    }))
}

fn height(low: u8) -> Option<Command>
    ensures { decoded result ≡ height_of low }
{
    if low < 8 {
        Some(Command::Height(low + 1))
    } else {
        None
    }
}

fn auto_code(low: u8) -> Option<Command>
    ensures { decoded result ≡ auto_code_of low }
{
    match low {
        0 => Some(Command::Run(Auto::Write)),
        1 => Some(Command::Run(Auto::Read)),
        2 => Some(Command::Run(Auto::Off)),
        _ => None,
    }
}

fn transfer(low: u8) -> Option<Command>
    ensures { decoded result ≡ transfer_of low }
{
    match low {
        0 => Some(Command::Store(Move::Up)),
        1 => Some(Command::Load(Move::Up)),
        2 => Some(Command::Store(Move::Down)),
        3 => Some(Command::Load(Move::Down)),
        4 => Some(Command::Store(Move::Stay)),
        5 => Some(Command::Load(Move::Stay)),
        _ => None,
    }
}

fn sight_code(low: u8) -> Option<Command>
    ensures { decoded result ≡ sight_code_of low }
{
    match low {
        0 => Some(Command::Peek),
        8 => Some(Command::Copy),
        _ => None,
    }
}

fn bit_code(low: u8) -> Option<Command>
    ensures { decoded result ≡ bit_code_of low }
{
    Some(Command::Bit(bit(low, 3) == 1, low % 8))
}

/// The command that a code, 00H to FFH, stands for; none where it is undefined.
pub fn decode(code: u8) -> Option<Command>
    ensures value { decoded result ≡ decode_of code }
    ensures result_value { decoded_number (decoded result) ≡ code_number code }
{
    let high = code / 16;
    let low = code % 16;
    match high {
        2 => register(low),
        4 => control(low),
        8 => mode(low),
        9 => display_mode(low),
        10 => height(low),
        11 => auto_code(low),
        12 => transfer(low),
        14 => sight_code(low),
        15 => bit_code(low),
        _ => None,
    }
}
