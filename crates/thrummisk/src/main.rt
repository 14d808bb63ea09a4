// The session program: standard input to standard output.
#![tactic(auto)]

fn main(rt: HostRuntime) {
    session_serve::serve(&mut rt.stdin(), &mut rt.stdout());
}
