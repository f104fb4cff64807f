// The program: standard input to lines.
#![tactic(auto)]

fn main(rt: HostRuntime) {
    judge_run::run(&rt);
}
