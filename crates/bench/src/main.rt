// The bench program (document 01): one job from standard input, its Intel HEX text to standard
// output, or `refused N` and a newline.
#![tactic(auto)]

use job::{MAX_BYTES, run_job};
use std::io;
use std::io::{Read, Write};

// Of the input a job and one byte more are read, which tells that it is too long.
fn main(rt: HostRuntime) -> io::Result<()> {
    let mut job = Vec::new(rt.alloc());
    rt.stdin().take(MAX_BYTES as u64 + 1).read_to_end(&mut job)?;
    let mut out = [0; 65536];
    let length = run_job(&job, &mut out);
    rt.stdout().write_all(&out[..length])
}
