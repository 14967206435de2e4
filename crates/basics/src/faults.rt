// The number of what a run refuses, and the answer of a refused run.
ghost use Rattle.std.specs.Prelude.{◌≡◌};
ghost use Rattle.machine.specs.Faults.{fault_number, refused_answer};

use machine::{Answer, Cursor, Fault, Stop};

// The number of a refusal.
pub fn fault_number(fault: Fault) -> u8
    ensures { result ≡ fault_number fault }
{
    fault as u8
}

// The answer of a refused run: the cursor as given, zero moves and zero handed out.
pub fn refused(fault: Fault, cursor: Cursor) -> Answer
    ensures { result ≡ refused_answer fault cursor }
{
    let stop = Stop::Refused(fault);
    Answer {
        stop,
        cursor,
        moves: 0,
        handed: 0,
    }
}
