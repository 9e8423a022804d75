// Replays stored cases: each line of each file that an argument names is answered by a line on standard output.
#![tactic(auto)]

use replay_tokens::print;
use std::fs::File;
use std::io::{Read, Stdout};
use std::rt::Files;
use std::{env, io};

mod answer;
mod line;

// The buffers stand here alone and are lent once: a large local array makes each statement of its function dear to check.
// A number takes two bytes at least, so the words of a line always have room.
fn run<R: Read>(file: &mut R, stdout: Stdout) -> io::Result<()> {
    let mut chunk = [0u8; 4096];
    let mut text = [0u8; 65536];
    let mut words = [0u32; replay_tokens::list::WORDS];
    let mut out = print::empty(stdout);
    line::replay(file, &mut chunk, &mut text, &mut words, &mut out)?;
    print::written(out)
}

fn run_arg(rt: &(impl Files + Eprint), path: &str, stdout: Stdout) -> io::Result<()> {
    match File::open(rt, path) {
        Ok(file) => {
            let mut cases = file;
            run(&mut cases, stdout)
        }
        Err(e) => eprintln!(rt; "{path}: {e}"),
    }
}

fn main(rt: HostRuntime) -> io::Result<()> {
    for path in env::args(&rt)?.skip(1) {
        run_arg(&rt, path.as_str(), rt.stdout())?;
    }
    Ok(())
}
