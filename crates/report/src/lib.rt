// A program's ends: input read so that a failure is told from its end, a refusal's line, the arguments, and the report on a descriptor of
// its own.
#![tactic(auto)]

ghost use Rattle.std.specs.Prelude.{◌≡◌, IfOk, IfErr};
ghost use Rattle.io.specs.Counts.{IsPrefixLen};
ghost use Rattle.state.specs.Refusals.{number_of};

pub mod descriptor;

use descriptor::Descriptor;
use state::refusal::Refused;
use std::env::FillError;
use std::io::{Error, Print, Read, Result};
use std::rt::Env;

// Where a program reports; whoever starts it opens this descriptor, and where it is not open there is no report.
const REPORT_FILENO: i32 = 3;

/// A read that failed: how many bytes stand at the buffer's start, and why no more came.
#[derive(Clone, Copy, Debug)]
pub struct Cut {
    pub count: usize,
    pub error: Error,
}

impl From<Cut> for Error {
    fn from(cut: Cut) -> Error {
        cut.error
    }
}

/// Reads until the buffer is full, the input ends or a read fails: how many bytes stand at the buffer's start then.
pub fn read_whole<R: Read>(input: &mut R, buf: &mut [u8]) -> std::result::Result<usize, Cut>
    ensures whole { IfOk result (λ count. IsPrefixLen count buf.new) }
    ensures cut { IfErr result (λ cut. IsPrefixLen cut.count buf.new) }
{
    let mut done: usize = 0;
    // a `while`: each read says how many bytes it gave, and the input may end before the buffer does
    while done < buf.len() {
        match input.read(&mut buf[done..]) {
            Ok(0) => break,
            Ok(count) => done += count,
            Err(error) => return Err(Cut { count: done, error }),
        }
    }
    Ok(done)
}

// `given` as a flag: docs/PROMISES.md names this, and it spares each program the `if`.
/// A ROM that was given is the input's first part, which has to be whole.
pub fn read_rom<R: Read>(input: &mut R, given: bool, rom: &mut [u8]) -> Result<()> {
    if given { input.read_exact(rom) } else { Ok(()) }
}

/// Whether the program was started with so many arguments behind its name, or more; of a number from 1 on.
pub fn has_argument(rt: &impl Env, number: usize) -> bool {
    let mut word = [0u8; 1];
    !matches!(rt.arg(number, &mut word), Err(FillError::NotPresent))
}

// A refusal by its number, here and below: docs/PROMISES.md names these, and the line and the report are numbers, 0 for none.
/// A refusal's line, to standard output, standard error or any `Descriptor`.
pub fn put_refusal(out: &impl Print, number: u8, place: usize) -> Result<()> {
    println!(out; "refusal {number} place {place}")
}

/// The line of what was refused, and its number to report.
pub fn put_refused(out: &impl Print, refused: Refused) -> Result<u8>
    ensures { IfOk result (λ number. number ≡ number_of refused.refusal) }
{
    let number = refused.refusal.number();
    put_refusal(out, number, refused.place).and(Ok(number))
}

/// The line of what came out, 0 and 0 where it was not refused, and its number to report.
pub fn put_outcome<T>(out: &impl Print, outcome: &std::result::Result<T, Refused>) -> Result<u8>
    ensures accepted { IfOk outcome.now (λ _. IfOk result (λ number. number ≡ 0)) }
    ensures refused { IfErr outcome.now (λ refused. IfOk result (λ number. number ≡ number_of refused.refusal)) }
{
    match outcome {
        Ok(_) => put_refusal(out, 0, 0).and(Ok(0)),
        Err(refused) => put_refused(out, *refused),
    }
}

// by a `Descriptor`: std has no safe handle for one that is not its own
/// The refusal number in decimal, to the line's end: all was read without an error and all was written, which is for the caller to see to.
pub fn report(number: u8) {
    let to = Descriptor(REPORT_FILENO);
    let _ = print!(to; "{number}");
    let _ = to.write_all(b"\n");
}

/// A program's end: the number that it came to is reported, and nothing where a read or a write failed.
pub fn finish(shown: Result<u8>) {
    if let Ok(number) = shown {
        report(number);
    }
}
