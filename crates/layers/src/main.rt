// The layers program: a panel, a cell and a log from standard input; text, graphic and what comes of them to standard output. Started with
// an argument it takes the character ROM before them, with two the panel is in two halves.
#![tactic(auto)]

ghost use Rattle.std.specs.Prelude.{◌≤◌};

use controller::run::run_stopping;
use display::seen::row_layers;
use ground::bytes::bit;
use ground::cells::pack;
use output::write_line;
use printed::dot::dot_mark;
use printed::fill::{character_rom, empty_memory};
use printed::input::{byte_in, panel_in, rest_in};
use report::{finish, has_argument, read_rom, read_whole};
use state::panel::Panel;
use state::refusal::Refusal;
use state::registers::{Display, Registers};
use std::fmt;
use std::io::Result;

// The column that asks for the whole frame: no panel has it.
const WHOLE: usize = 255;

// The most cells of a row.
const CELLS: usize = 80;

#[derive(Clone, Copy, Debug, PartialEq, Eq)]
enum Layer {
    Text,
    Graphic,
    Shown,
}

impl fmt::Display for Layer {
    fn fmt<W: fmt::Write>(&self, f: &mut fmt::Formatter<W>) -> fmt::Result {
        f.write_str(match self {
            Layer::Text => "text",
            Layer::Graphic => "graphic",
            Layer::Shown => "shown",
        })
    }
}

// What decides the picture.
#[derive(Clone, Copy, Drop)]
struct Picture<'a> {
    panel: Panel,
    display: Display,
    memory: &'a [u8],
    rom: &'a [u8],
}

// The dots of at most eighty cells.
fn dots_of(cells: usize, width: usize) -> usize
    ensures { result ≤ 640 }
{
    let few = cells.min(CELLS);
    if width == 6 { 6 * few } else { 8 * few }
}

fn fill_dots(packed: &[u8], line: &mut [u8]) {
    for (x, place) in line.iter_mut().enumerate() {
        *place = dot_mark(bit(byte_in(packed, x / 8), 7 - x % 8));
    }
}

// Cells as a line of dots, the leftmost first. Here and below: where something can't be written the rest is tried all the same.
fn put_cells(rt: HostRuntime, width: usize, cells: &[u8]) -> Result<()> {
    let dots = dots_of(cells.len(), width);
    let bytes = dots.div_ceil(8);
    let mut packed = [0u8; CELLS];
    let mut line = [0u8; 8 * CELLS];
    pack(width, cells, &mut packed[..bytes]);
    fill_dots(&packed[..bytes], &mut line[..dots]);
    rt.write_all(&line[..dots]).and(println!(rt; ""))
}

impl Picture<'_> {
    // One layer of so many cells of a row, at most eighty; blank where there is no such row or cell.
    fn put_layer(
        &self,
        rt: HostRuntime,
        layer: Layer,
        row: usize,
        column: usize,
        cells: usize,
    ) -> Result<()> {
        let few = cells.min(CELLS);
        let mut text = [0u8; CELLS];
        let mut graphic = [0u8; CELLS];
        let mut shown = [0u8; CELLS];
        // never refused: the run was neither `Invalid` nor `OddLength`, and all lengths are right
        let _ = row_layers(
            self.panel,
            self.display,
            self.memory,
            self.rom,
            row,
            column,
            &mut text[..few],
            &mut graphic[..few],
            &mut shown[..few],
        );
        let seen = match layer {
            Layer::Text => &text,
            Layer::Graphic => &graphic,
            Layer::Shown => &shown,
        };
        put_cells(rt, self.panel.width, &seen[..few])
    }

    // A layer of the row's cell at a column, or of every row.
    fn put(&self, rt: HostRuntime, layer: Layer, row: usize, column: Option<usize>) -> Result<()> {
        if let Some(column) = column {
            let name = print!(rt; "{layer} ");
            return name.and(self.put_layer(rt, layer, row, column, 1));
        }
        let mut written = println!(rt; "{layer}");
        for row in 0..8 * self.panel.lines.min(32) {
            written = written.and(self.put_layer(rt, layer, row, 0, self.panel.columns));
        }
        written
    }
}

// The run stands here and in the xbm program: a function would take the memory and the answers lent, and be this one call.
// The run's line, as the log program has it, then the layers; on `Invalid` and `OddLength` the line only.
fn show(rt: HostRuntime, rom: &[u8], input: &[u8]) -> Result<u8> {
    let panel = panel_in(input, has_argument(&rt, 2));
    let row = byte_in(input, 3) as usize;
    let asked = byte_in(input, 4) as usize;
    let column = if asked == WHOLE { None } else { Some(asked) };
    let log = rest_in(input, 5);
    let mut memory = empty_memory();
    let mut answers = [0u8; 8192];
    let registers = Registers::reset();
    let ran = run_stopping(
        panel,
        registers,
        &mut memory,
        rom,
        log,
        log.len() / 2,
        &mut answers,
    );
    let mut written = write_line(&rt, ran.taken, ran.answers, ran.number, ran.place);
    if let Ok(Refusal::Invalid | Refusal::OddLength) = Refusal::try_from(ran.number) {
        return written.and(Ok(ran.number));
    }
    let picture = Picture {
        panel,
        display: ran.registers.display,
        memory: &memory,
        rom,
    };
    for layer in [Layer::Text, Layer::Graphic, Layer::Shown] {
        written = written.and(picture.put(rt, layer, row, column));
    }
    written.and(Ok(ran.number))
}

// Its own in each program: what is shown differs, and no public function has the `requires` that a closure needs (docs/PROMISES.md).
// A log run and its layers shown: the run's refusal number.
fn layers(rt: HostRuntime) -> Result<u8> {
    let mut rom = character_rom();
    read_rom(&mut rt.stdin(), has_argument(&rt, 1), &mut rom)?;
    let mut input = [0u8; 16389];
    let end = read_whole(&mut rt.stdin(), &mut input)?;
    show(rt, &rom, &input[..end])
}

fn main(rt: HostRuntime) {
    finish(layers(rt));
}
