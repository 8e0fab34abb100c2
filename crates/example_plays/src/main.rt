// Prints the report of each play that is named, and of a play with a byte too many.
// The plays stand in data/, each beside its report; the whole output is compared.
#![tactic(auto)]

use play::play::LONGEST;
use report::report::report;
use std::{env, fs, str};

// The name of a play, and its report.
fn show(rt: &HostRuntime, name: &str, bytes: &[u8]) -> anyhow::Result<()> {
    let text = report(rt.alloc(), bytes)?;
    println!(rt; "{name}")?;
    rt.print(str::from_utf8(&text)?)?;
    Ok(())
}

fn main(rt: HostRuntime) -> anyhow::Result<()> {
    for name in env::args(&rt)?.skip(1) {
        let bytes = fs::read(&rt, name.as_str())?;
        show(&rt, name.as_str(), &bytes)?;
    }
    let long = vec![in rt.alloc(); b'R'; LONGEST + 1]?;
    show(&rt, "a byte too many", &long)
}
