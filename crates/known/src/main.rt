// Holds known answers: those of the charts of document 01, of RFC 5545's examples, of the check, of the Rust and of cursors at their
// edges. They stand on standard input; answering says how they are written and what is compared.
#![tactic(auto)]

fn main() {
    answering::answer_lines(true);
}
