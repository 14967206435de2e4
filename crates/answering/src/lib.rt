// Answers lines: a rule a line, in the words of docs/LINES.md. The answers are written; or they are known, stand behind the rules and
// are compared.
#![tactic(auto)]

mod alike;
mod answer;
mod chain;
mod compare;
mod input;
mod stop;

ghost use Rattle.std.specs.Prelude.{◌≡◌};

// Answers every line of standard input, or holds its answer against the known one. What it finds goes to standard output, of which no
// promise can speak; it answers nothing.
pub fn answer_lines(known: bool)
    ensures { result ≡ tt }
{
    input::read(known);
}
