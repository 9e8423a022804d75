// Answers each file that an argument names as the bench program answers its standard input, and writes the file's name before the answer.
#![tactic(auto)]

use std::fs::File;
use std::rt::{Env, Files};
use std::{env, io};

fn run_arg(rt: &(impl Files + Print + Eprint), path: &str) -> io::Result<()> {
    match File::open(rt, path) {
        Ok(file) => {
            let mut text = file;
            print!(rt; "{path}: ")?;
            bench_serve::inner::serve(&mut text, &mut io::writer(rt))
        }
        Err(e) => eprintln!(rt; "{path}: {e}"),
    }
}

fn main(rt: HostRuntime) -> io::Result<()> {
    for path in env::args(&rt)?.skip(1) {
        run_arg(&rt, path.as_str())?;
    }
    Ok(())
}
