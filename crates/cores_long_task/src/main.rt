// `cores` on a task set of 33,601 bytes.
#![tactic(auto)]

fn main(rt: HostRuntime) {
    terminal::print_cores(&rt);
}
