// `cores` on files of the most bytes: they are read whole, and the task set is refused for its leftover bytes (24).
#![tactic(auto)]

fn main(rt: HostRuntime) {
    terminal::print_cores(&rt);
}
