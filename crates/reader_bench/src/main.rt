//! Feeds standard input to a reader and prints how many events it completed: only the inner loop of every subcommand.
#![tactic(auto)]

use sixel_grammar::Reader;
use std::io::Read;

/// How many bytes one read takes at most.
const PIECE: usize = 65_536;

/// How many events the bytes complete, before a fault if there is one.
fn count(reader: &mut Reader, piece: &[u8]) -> u64 {
    let mut events: u64 = 0;
    for byte in piece {
        match reader.feed(*byte) {
            Ok(completed) => {
                if completed.first.is_some() {
                    events = events.wrapping_add(1);
                    if completed.second.is_some() {
                        events = events.wrapping_add(1);
                    }
                }
            }
            Err(_) => return events,
        }
    }
    events
}

fn main(rt: HostRuntime) -> Result<(), anyhow::Error> {
    let mut input = rt.stdin();
    let mut reader = Reader::new();
    let mut piece = [0u8; PIECE];
    let mut events: u64 = 0;
    for _ in 0..u64::MAX {
        let given = input.read(&mut piece)?;
        if given == 0 {
            break;
        }
        events = events.wrapping_add(count(&mut reader, &piece[..given]));
    }
    println!(rt; "{events}")?;
    Ok(())
}
