// `cores` on a trace of 4,097 bytes.
#![tactic(auto)]

fn main(rt: HostRuntime) {
    terminal::print_cores(&rt);
}
