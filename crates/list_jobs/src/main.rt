// Lists the jobs on standard input, one after another, each headed by its number of bytes (two, the low byte first).

#![tactic(auto)]

fn main(rt: HostRuntime) {
    listing::list_jobs(rt);
}
