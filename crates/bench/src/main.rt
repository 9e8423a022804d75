// The bench program: standard input to standard output.
#![tactic(auto)]

use std::io;

fn main(rt: HostRuntime) -> io::Result<()> {
    bench_serve::inner::serve(&mut rt.stdin(), &mut rt.stdout())
}
