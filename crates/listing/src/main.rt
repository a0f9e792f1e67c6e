//! Reads a record file from standard input and writes its answer to standard output.

#![tactic(auto)]

use report::{LIMIT, reply};
use std::io;
use std::io::{Read, Write};

fn main(rt: HostRuntime) -> io::Result<()> {
    let heap = rt.alloc();
    let mut input = Vec::new(heap);
    // One byte past the limit tells that the input is too long. `as`: there is no `From` from `usize` to `u64`.
    rt.stdin().take(LIMIT as u64 + 1).read_to_end(&mut input)?;
    let mut out = vec![in heap; 0; LIMIT]?;
    let size = reply(&input, &mut out).unwrap();
    rt.stdout().write_all(&out[0..size])
}
