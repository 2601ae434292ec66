// The log program: a panel and a log from standard input, what the controller makes of them to standard output.
#![tactic(auto)]

mod print;

use crate::print::print;
use report::{finish, read_whole};
use std::io::Result;

// The log's text written, and its refusal number.
fn print_log(rt: HostRuntime) -> Result<u8> {
    let mut input = [0u8; 16387];
    let end = read_whole(&mut rt.stdin(), &mut input)?;
    let mut out = [0u8; 196608];
    let told = print(&input[..end], &mut out);
    let count = told.count;
    rt.write_all(&out[..count])?;
    Ok(told.number)
}

fn main(rt: HostRuntime) {
    finish(print_log(rt));
}
