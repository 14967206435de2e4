// Runs the rules of standard input, one a line, and writes a line for each: what the check refuses, or what a chain of runs hands out.
// docs/LINES.md says how the lines are written.
#![tactic(auto)]

fn main() {
    answering::answer_lines(false);
}
