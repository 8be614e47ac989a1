// Lists the cascade of the job and sheet on standard input.

#![tactic(auto)]

fn main(rt: HostRuntime) {
    listing::list_input(rt);
}
