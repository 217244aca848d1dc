// `cores` where the trace is missing: it counts as empty, and a trace of no bytes means one record of zeros for every core.
#![tactic(auto)]

fn main(rt: HostRuntime) {
    terminal::print_cores(&rt);
}
