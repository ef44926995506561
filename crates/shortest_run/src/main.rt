// Runs the bodies of standard input through `quarrel`: a shortest conflict of each, with both forms of the lines.
#![tactic(auto)]

use quarrel_cases::Cases;

fn main(rt: HostRuntime) {
    quarrel_cases::run(&rt, Cases::Shortest);
}
