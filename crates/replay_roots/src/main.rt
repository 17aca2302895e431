// Replays the roots that were reasoned in whole numbers, oracle/root_vectors.txt. The files stdin
// and stdout beside src/ are made of it:
//
//     awk '/^[0-9a-f]/ { print "s " $1 > "stdin"; print $2 > "stdout" }' ../../oracle/root_vectors.txt
#![tactic(auto)]

// The program of `replay` on files of its own, which rt looks for beside src/.
use std::io::Result;

fn main(rt: HostRuntime) -> Result<()> {
    replay_lines::replay(&mut rt.stdin(), &mut rt.stdout())
}
