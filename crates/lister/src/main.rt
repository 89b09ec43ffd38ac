// Lists the readings of the event file by the grammar file, which are its first two arguments.
#![tactic(auto)]

fn main(rt: HostRuntime) {
    shell::run_at(&rt, 1);
}
