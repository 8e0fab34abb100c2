// Reads plays, one to a line with `|` for LF, `~` for NUL, `^` for CR and `@` for byte 200, and prints the fault line of each, or that it has none.
// Many faulty plays in one run; the output is compared.
#![tactic(auto)]

use anyhow::Context;
use play::fault_line::{FAULT_LINE, write_fault};
use play::play::read_play;
use std::io::{BufRead, BufReader};
use std::str;

// The byte that a mark stands for.
fn meant(mark: u8) -> u8 {
    match mark {
        b'|' => b'\n',
        b'~' => 0,
        b'^' => b'\r',
        b'@' => 200,
        other => other,
    }
}

// Prints the play as it was given, behind its fault line. (A refusal has no text of its own, so that `context` says it.)
fn tell(rt: &HostRuntime, shown: &str) -> anyhow::Result<()> {
    let bytes: Vec<u8> = shown.bytes().map(meant).collect(rt.alloc())?;
    let mut line = [b' '; FAULT_LINE];
    let told = match read_play(&bytes) {
        Ok(_) => "no fault",
        Err(fault) => {
            write_fault(&mut line, fault)
                .ok()
                .context("the fault line is too wide")?;
            str::from_utf8(&line[..FAULT_LINE - 1])?
        }
    };
    println!(rt; "{told:<14} {shown}")?;
    Ok(())
}

fn main(rt: HostRuntime) -> anyhow::Result<()> {
    for line in BufReader::new(rt.alloc(), rt.stdin())?.lines(rt.alloc()) {
        tell(&rt, line?.as_str())?;
    }
    Ok(())
}
