// Replays the stored sample of the Rust's answers: `oracle/run list crates/replay` writes the files
// stdin and stdout beside src/.
#![tactic(auto)]

use std::io::Result;

fn main(rt: HostRuntime) -> Result<()> {
    replay_lines::replay(&mut rt.stdin(), &mut rt.stdout())
}
