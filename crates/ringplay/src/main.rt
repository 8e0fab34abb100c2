// Reads a play from standard input and prints its report on standard output.
// A fault also gets one sentence on standard error. Status 0, unless a stream fails or memory runs out.
// All that matters is in the library `report`; what is printed is compared with a stored report.
#![tactic(auto)]

mod sentence;

use crate::sentence::Sentence;
use anyhow::anyhow;
use play::play::{LONGEST, read_play};
use report::report::report;
use std::io::{BufWriter, Read, Write};

// The report on standard output. One byte more than a play may have is enough to know that it is too long.
fn main(rt: HostRuntime) -> anyhow::Result<()> {
    let heap = rt.alloc();
    let mut bytes = Vec::new(heap);
    let most = LONGEST as u64 + 1;
    rt.stdin().take(most).read_to_end(&mut bytes)?;
    let text = report(heap, &bytes).map_err(|error| anyhow!("ringplay: {error}"))?;
    let mut out = BufWriter::new(heap, rt.stdout())?;
    out.write_all(&text)?;
    out.flush()?;
    if let Err(fault) = read_play(&bytes) {
        eprintln!(rt; "{}", Sentence(fault))?;
    }
    Ok(())
}
