// Lines whose answers are known: a rule, a bar, and the answer or how it begins. A line that begins with # begins a group. For each
// group it is written how many lines were compared, for how many of them chains of calls were too, and how many and which differ.
use crate::answer::write_line;
use output::Out;
use std::fmt;
use words::split_once;

// What was compared in a group.
#[derive(Clone, Copy, Default)]
pub(crate) struct Tally {
    lines: u64,
    chained: u64,
    different: u64,
}

impl Tally {
    // Through the lent bytes, of which the answer compared last is let go: new ones would be cleared for each group.
    pub(crate) fn write(self, out: &mut Out) {
        out.waiting.clear();
        out.put(self);
        out.flush();
    }

    // Compares a line, and writes it where its answer isn't the known one.
    pub(crate) fn compare(self, line: &[u8], out: &mut Out) -> Self {
        let (rule, known) = match split_once(line, b'|') {
            Some((rule, known)) => (rule, Some(known)),
            None => (line, None),
        };
        out.waiting.clear();
        write_line(rule, true, out);
        let answer = out.waiting.as_slice();
        let is_same = known.is_some_and(|known| begins_with(answer, known));
        if !is_same {
            write_different(line, answer);
        }
        self.with(is_same, answer.ends_with(b" chains=36"))
    }

    fn with(self, is_same: bool, is_chained: bool) -> Self {
        Tally {
            lines: self.lines.wrapping_add(1),
            chained: self.chained.wrapping_add(u64::from(is_chained)),
            different: self.different.wrapping_add(u64::from(!is_same)),
        }
    }
}

impl fmt::Display for Tally {
    fn fmt<W: fmt::Write>(&self, f: &mut fmt::Formatter<W>) -> fmt::Result {
        writeln!(
            f,
            "{} compared, {} of them in chains of calls too; {} different",
            self.lines, self.chained, self.different
        )
    }
}

// Whether an answer is the known one, or begins so and goes on behind a space.
fn begins_with(answer: &[u8], known: &[u8]) -> bool {
    answer
        .strip_prefix(known)
        .is_some_and(|rest| rest.is_empty() || rest[0] == b' ')
}

fn write_different(line: &[u8], answer: &[u8]) {
    io::write_all(1, line);
    io::write_all(1, b"\n  ours: ");
    io::write_all(1, answer);
    io::write_all(1, b"\n");
}
