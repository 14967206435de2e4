// Reading standard input, a line at a time.
use crate::answer::write_line;
use crate::compare::Tally;
use arrayvec::ArrayVec;
use output::Out;

// Reads to the end. A proved loop has to end, and nothing says that an input does: so the turns are
// counted, up to a number that no run uses up.
pub(crate) fn read(known: bool) {
    let mut piece = io::large_buffer();
    let mut reader = Reader::new(known);
    for _ in 0..u64::MAX {
        let count = io::read_full(0, &mut piece);
        if count == 0 {
            break;
        }
        reader.take(&piece[..count]);
    }
    reader.end();
}

// The line so far, of which one byte more is kept than it may have, what waits to be written, and what was compared in a group, once it
// has begun.
#[derive(Drop)]
struct Reader {
    known: bool,
    line: ArrayVec<u8, 65537>,
    out: Out,
    group: Option<Tally>,
}

impl Reader {
    fn new(known: bool) -> Self {
        Reader {
            known,
            line: ArrayVec::new(),
            out: Out::new(),
            group: None,
        }
    }

    fn take(&mut self, piece: &[u8]) {
        for byte in piece {
            if *byte == b'\n' {
                self.end_line();
            } else {
                let _ = self.line.try_push(*byte);
            }
        }
    }

    fn end_line(&mut self) {
        if self.known {
            self.compare_line();
        } else {
            self.write_line();
            self.out.push(b'\n');
        }
        self.line.clear();
    }

    // An empty line has an empty answer. It is asked here: `answer::write_line` clears its room for a line before it asks anything.
    fn write_line(&mut self) {
        if !self.line.is_empty() {
            write_line(self.line.as_slice(), false, &mut self.out);
        }
    }

    // A heading ends a group and begins another; any other line has a rule, and with the bar its answer.
    fn compare_line(&mut self) {
        let line = self.line.as_slice();
        if line.starts_with(b"#") {
            self.end_group();
            io::write_all(1, self.line.as_slice());
            io::write_all(1, b"\n");
            self.group = Some(Tally::default());
        } else if !line.is_empty() {
            let group = self.group.unwrap_or_default();
            self.group = Some(group.compare(line, &mut self.out));
        }
    }

    fn end_group(&mut self) {
        if let Some(group) = self.group {
            group.write(&mut self.out);
        }
    }

    // At the end of the input a last line without its newline counts.
    fn end(&mut self) {
        if !self.line.is_empty() {
            self.end_line();
        }
        if self.known {
            self.end_group();
        } else {
            self.out.flush();
        }
    }
}
