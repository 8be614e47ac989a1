// Draws the diagram and the cascade of the job and sheet on standard input.

#![tactic(auto)]

fn main(rt: HostRuntime) {
    drawing::draw_input(rt);
}
