// Runs the block file on standard input, and writes what it prints to standard output.
#![tactic(auto)]

fn main(rt: HostRuntime) {
    file_program::tell(&rt, file_program::answer(&mut rt.stdin(), &rt.stdout()));
}
