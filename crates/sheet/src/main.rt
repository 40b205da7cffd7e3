// Model sheets of the questions on standard input.
#![tactic(auto)]

fn main(rt: HostRuntime) {
    sheet_stream::run(&mut rt.stdin(), &mut rt.stdout(), &mut rt.stderr());
}
