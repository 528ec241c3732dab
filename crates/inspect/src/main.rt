// Reads REQUEST.TXT in the working directory and tells what it asks for, or why it is refused and where.
#![tactic(auto)]

mod names;
mod refusals;
mod requests;

use carrier::unpack;
use inputs::read_or_empty;
use refusals::print_refusal;
use requests::print_request;
use std::io;
use zengin::check::summary;

fn main(rt: HostRuntime) -> io::Result<()> {
    let raw = read_or_empty(&rt, "REQUEST.TXT")?;
    let mut buffer = vec![in rt.alloc(); 0u8; raw.len()]?;
    match unpack(raw.as_slice(), buffer.as_mut_slice()) {
        Ok(len) => {
            buffer.truncate(len);
            let file = buffer.as_slice();
            match summary(file) {
                Ok(figures) => print_request(&rt, file, figures),
                Err(denial) => print_refusal(&rt, file, denial),
            }
        }
        Err(denial) => print_refusal(&rt, &[], denial),
    }
}
