// Replays data/vectors.bin: each record has a document and the answer that is due, made by tests/oracle. Prints each
// document that is answered otherwise, and how many there are. Then data/findings.bin and data/messages.bin alike.
#![tactic(auto)]

mod file;
mod found;
mod lines;
mod messages;
mod sheet;
mod vectors;

use file::replay;
use found::Sheets;
use messages::Messages;
use std::fs::File;
use std::io::Result;
use vectors::Vectors;

fn main(rt: HostRuntime) -> Result<()> {
    let out = rt.stdout();
    let mut space = [0u8; 70000];
    replay(
        File::open(&rt, "vectors.bin")?,
        out,
        &mut space,
        Vectors::default(),
    );
    replay(
        File::open(&rt, "findings.bin")?,
        out,
        &mut space,
        Sheets::new(),
    );
    replay(
        File::open(&rt, "messages.bin")?,
        out,
        &mut space,
        Messages::default(),
    );
    Ok(())
}
