// What is wrong with a line and with a play. A fault of columns is passed up through both.
ghost use Rattle.std.specs.Prelude.{◌≡◌};
ghost use Rattle.play.specs.declared.fault.LineFault.TheVariants.{Column};
ghost use Rattle.play.specs.Faults.{place_of};

use columns::ColumnFault;

// A fault found in a line: its length or its letter (layer 2), or one of its fields (layer 1).
#[derive(Clone, Copy, PartialEq, Eq, Debug)]
pub enum LineFault {
    Cut,
    Letter,
    Column(ColumnFault),
}

// A fault found in a play: too many bytes, a header missing or out of place (layer 3), or a line's fault.
#[derive(Clone, Copy, PartialEq, Eq, Debug)]
pub enum PlayFault {
    Long,
    Header { line: usize },
    Line { line: usize, fault: LineFault },
}

// What a fault line prints. Layer and number are numbers: one layer's number is the refusal's of columns, passed on.
#[derive(Clone, Copy, PartialEq, Eq, Debug)]
pub struct Place {
    pub layer: u16,
    pub number: u16,
    pub line: usize,
    pub column: usize,
}

// A field's fault becomes its line's, whole.
impl From<ColumnFault> for LineFault {
    ghost from_gives = { λ e r. r ≡ Column e };

    fn from(fault: ColumnFault) -> LineFault {
        LineFault::Column(fault)
    }
}

impl PlayFault {
    // The layer that found the fault, its number, and where it stands.
    pub fn place(self) -> Place
        ensures { result ≡ place_of self }
    {
        match self {
            PlayFault::Long => Place {
                layer: 3,
                number: 26,
                line: 1,
                column: 1,
            },
            PlayFault::Header { line } => Place {
                layer: 3,
                number: 25,
                line,
                column: 1,
            },
            PlayFault::Line { line, fault } => match fault {
                LineFault::Cut => Place {
                    layer: 2,
                    number: 21,
                    line,
                    column: 1,
                },
                LineFault::Letter => Place {
                    layer: 2,
                    number: 22,
                    line,
                    column: 1,
                },
                LineFault::Column(found) => Place {
                    layer: 1,
                    number: found.refusal.number(),
                    line,
                    column: found.column,
                },
            },
        }
    }
}
