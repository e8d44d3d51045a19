// Reads a plan from standard input and writes its listing, or the line of its refusal. A listing that could not be written whole, as on a
// full disk, is reported on standard error; a read that fails ends the program with its error.
#![tactic(auto)]

use std::io;
use std::io::Read;

fn main(rt: HostRuntime) -> io::Result<()> {
    let mut input = [0u8; answer::INPUT_PLACES];
    let mut out = [0u8; answer::LISTING_BYTES];
    let mut places: &mut [u8] = &mut input;
    let read = io::copy(
        &mut rt.reader().take(answer::INPUT_PLACES as u64),
        &mut places,
    )?;
    let written = answer::list_input(&input, read as usize, &mut out);
    if rt.write_all(&out[..written]).is_err() {
        let _ = eprintln!(rt; "labels: the listing could not be written whole");
    }
    Ok(())
}
