// The program, on the example that document 01 prints.
#![tactic(auto)]

fn main(rt: HostRuntime) {
    program_streams::check_input(&rt);
}
