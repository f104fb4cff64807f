// The program: standard input to lines.
#![tactic(auto)]

fn main(rt: HostRuntime) {
    archive_run::run(&rt);
}
