// How many bytes a pair stores if it is accepted, from the pointer on.
ghost use Rattle.std.specs.Prelude.{◌≡◌, true};
ghost use Rattle.state.specs.State.{valid_panel};
ghost use Rattle.codes.specs.Command.{decode_of};
ghost use Rattle.sight.specs.Sight.{position};
ghost use Rattle.stores.specs.Stores.{copy_stores, command_stores, code_stores, stores_asked};

use codes::command::Command;
use codes::decode::decode;
use codes::pair::Kind;
use effects::effect::is_write;
use sight::position::locate;
use state::combination::is_attribute;
use state::panel::Panel;
use state::registers::Registers;

// How many bytes a copy stores: from the pointer's column to the row's end.
fn copied(panel: Panel, registers: Registers) -> usize
    requires { valid_panel panel ≡ true }
    ensures { result ≡ copy_stores panel registers.display (position panel registers) }
{
    let display = registers.display;
    let Some(position) = locate(panel, display.graphic, registers.bus.pointer) else {
        return 0;
    };
    if panel.dual | is_attribute(display.combination) {
        return 0;
    }
    panel.columns - position.column
}

// How many a command stores.
fn by_command(panel: Panel, registers: Registers, command: Command) -> usize
    requires { valid_panel panel ≡ true }
    ensures { result ≡ command_stores panel registers command }
{
    match command {
        Command::Store(_) => 1,
        Command::Copy => copied(panel, registers),
        Command::Bit(_, _) => 1,
        _ => 0,
    }
}

// How many the command of a code stores; none where it is undefined.
fn by_code(panel: Panel, registers: Registers, code: u8) -> usize
    requires { valid_panel panel ≡ true }
    ensures { result ≡ code_stores panel registers (decode_of code) }
{
    let Some(command) = decode(code) else {
        return 0;
    };
    by_command(panel, registers, command)
}

// `kind` and `byte` side by side, and no `Pair`: docs/PROMISES.md names this, and the kind may be any.
/// How many bytes a pair of any kind stores if it is accepted, 0 to 80; a panel that is not valid stores nothing.
pub fn stores(panel: Panel, registers: Registers, kind: u8, byte: u8) -> usize
    ensures { result ≡ stores_asked panel registers (record { kind = kind; byte = byte }) }
{
    if !panel.valid() {
        return 0;
    }
    match Kind::try_from(kind) {
        Ok(Kind::Data) => { if is_write(registers.bus.auto) { 1 } else { 0 } }
        Ok(Kind::Command) => by_code(panel, registers, byte),
        _ => 0,
    }
}
