// How a chain of calls ended.
use machine::Stop;
use std::fmt;

// How the last call stopped.
#[derive(Clone, Copy)]
pub(crate) struct ShownStop(pub Stop);

impl fmt::Display for ShownStop {
    fn fmt<W: fmt::Write>(&self, f: &mut fmt::Formatter<W>) -> fmt::Result {
        match self.0 {
            Stop::Ended => write!(f, ": ended"),
            Stop::More => write!(f, ": more"),
            Stop::Limited => write!(f, ": limited"),
            Stop::Refused(fault) => {
                let number = fault as u8;
                write!(f, "refused {number}")
            }
        }
    }
}
