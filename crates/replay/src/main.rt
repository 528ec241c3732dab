// Reads SCRIPT.TXT in the working directory, a list of commands on hosts and registers, and prints an answer for each.
#![tactic(auto)]

mod script;

use afternoon::desk::Desk;
use afternoon::performing::perform;
use inputs::read_or_empty;
use script::read_line;
use std::io;

const LINE_FEED: u8 = 0x0a;

// Performs one line, prints its answer, and hands the desk on.
fn replay_line(rt: &HostRuntime, desk: Desk, line: &[u8]) -> io::Result<Desk> {
    match read_line(line) {
        Ok(None) => Ok(desk),
        Ok(Some(command)) => {
            let (desk, answer) = perform(desk, rt.alloc(), command)?;
            println!(rt; "{answer}")?;
            Ok(desk)
        }
        Err(bad_line) => {
            println!(rt; "{bad_line}")?;
            Ok(desk)
        }
    }
}

fn main(rt: HostRuntime) -> io::Result<()> {
    let script = read_or_empty(&rt, "SCRIPT.TXT")?;
    let mut desk = Desk::new(rt.alloc());
    // A last line counts without its line feed; what follows the last line feed is a blank line, which prints nothing.
    for line in script.split(|byte| *byte == LINE_FEED) {
        desk = replay_line(&rt, desk, line)?;
    }
    Ok(())
}
