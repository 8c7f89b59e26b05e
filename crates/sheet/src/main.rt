// Reads a sheet from standard input and prints its listing.
#![tactic(auto)]

use anyhow::anyhow;
use cursor::LONGEST;
use listing::text::listing;
use std::env;
use std::io::Read;
use std::process::ExitCode;

// One byte more than the longest sheet has, which tells a sheet that is too long.
const MOST: u64 = LONGEST as u64 + 1;

const HELP: &str = "\
usage: sheet < SHEET

Reads a sheet of events from standard input and tells what it holds:
the section count, a line for each event, and how the sheet ends,
`end COUNT` or `stop NUMBER at OFFSET`. The status is 0 for both.
";

fn list(rt: &HostRuntime) -> anyhow::Result<()> {
    let mut sheet = Vec::new(rt.alloc());
    rt.stdin().take(MOST).read_to_end(&mut sheet)?;
    let text = listing(rt.alloc(), sheet.as_slice())?;
    rt.write_all(text.as_bytes())?;
    Ok(())
}

fn run(rt: &HostRuntime) -> anyhow::Result<()> {
    let mut args = env::args(rt)?.skip(1);
    let Some(word) = args.next() else {
        return list(rt);
    };
    if word.as_str() != "--help" || args.next().is_some() {
        return Err(anyhow!("a sheet is read from standard input; the only argument is --help"));
    }
    rt.print(HELP)?;
    Ok(())
}

fn main(rt: HostRuntime) -> ExitCode {
    match run(&rt) {
        Ok(()) => ExitCode::SUCCESS,
        Err(error) => {
            let _ = eprintln!(rt; "sheet: {error}");
            ExitCode::FAILURE
        }
    }
}
