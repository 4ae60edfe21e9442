// The program `replay`: puts the calls of a script (docs/REPLAY.md) to the port, and prints the replies. Here the file and
// the script's stores, in `turns` how its calls are read, in `room` where their words are put, in `calls` the calls on one store.

#![tactic(auto)]

mod calls;
mod room;
mod turns;

use files::arguments;
use files::out::Output;
use room::Room;
use script::fault::{Complaint, Fault};
use script::store::Store;
use std::fs::File;
use std::io;
use turns::Turns;

// The script's stores in turn.
fn stores(
    turns: &mut Turns,
    room: &mut Room,
    out: &mut Output,
    records: &mut [u64],
    children: &mut [u64],
    text: &mut [u8],
) -> Result<(), Complaint> {
    let mut store = Store::default();
    while let Some(next) = calls::on_store(turns, room, out, records, children, text, store)? {
        store = next;
    }
    Ok(())
}

// Says what ended the replies before the script's end. Where no more could be read, a call that ends too early is not at fault.
fn tell_end(rt: HostRuntime, replied: Result<(), Complaint>, read: io::Result<()>) {
    match (replied, read) {
        (Err(complaint), Err(error)) if complaint.fault == Fault::Ends => {
            files::tell(rt.stderr(), b"the script", error);
        }
        (Err(complaint), _) => {
            let _ = eprintln!(rt; "{complaint}");
        }
        (Ok(()), Err(error)) => files::tell(rt.stderr(), b"the script", error),
        (Ok(()), Ok(())) => {}
    }
}

// The replies to the script in an open file.
fn replay(rt: HostRuntime, file: File) {
    // somewhat more places than a store uses
    let mut records = [0u64; 65600];
    let mut children = [0u64; 16400];
    let mut text = [0u8; 65600];
    let mut room = Room::new(rt);
    let mut out = Output::new(rt);
    let mut turns = Turns::new(file);
    let replied = stores(
        &mut turns,
        &mut room,
        &mut out,
        &mut records,
        &mut children,
        &mut text,
    );
    tell_end(rt, replied, turns.read);
    out.flush();
}

fn replay_file(rt: HostRuntime, name: &[u8]) {
    match files::open(rt, name) {
        Ok(file) => replay(rt, file),
        Err(error) => files::tell(rt.stderr(), name, error),
    }
}

fn put_usage(rt: HostRuntime) {
    let _ = eprintln!(rt; "usage: replay [CALLS]   (without a name: the file `calls`)");
}

// The file that the argument names, unless it asks for help.
fn replay_named(rt: HostRuntime) {
    let mut name = [0u8; 4096];
    match arguments::read(rt, 1, &mut name) {
        Ok(b"-h" | b"--help") => put_usage(rt),
        Ok(name) => replay_file(rt, name),
        Err(error) => files::tell(rt.stderr(), b"CALLS", error),
    }
}

fn main(rt: HostRuntime) {
    // the program's own name is among the arguments
    match arguments::count(rt) {
        0 | 1 => replay_file(rt, b"calls"),
        2 => replay_named(rt),
        _ => put_usage(rt),
    }
}
