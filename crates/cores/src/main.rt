// The program `cores`: `task.bin`, `trace.bin` and `order.bin` of the folder that it runs in, as text (crate terminal).
#![tactic(auto)]

fn main(rt: HostRuntime) {
    terminal::print_cores(&rt);
}
