// The job program: records from standard input, a line for each.
#![tactic(auto)]

fn main(rt: HostRuntime) {
    job_stream::run(&mut rt.stdin(), &mut rt.stdout());
}
