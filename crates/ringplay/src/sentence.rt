// A fault in plain English.
use columns::ReadRefusal;
use play::fault::{LineFault, PlayFault};
use std::fmt;

// Prints one sentence: where the fault stands and what was expected.
#[derive(Clone, Copy)]
pub(crate) struct Sentence(pub(crate) PlayFault);

impl Sentence {
    // What was expected where the fault stands.
    fn expected(self) -> &'static str {
        match self.0 {
            PlayFault::Long => "a play has at most 60000 bytes",
            PlayFault::Header { .. } => "the first line, and no other, is the header R",
            PlayFault::Line { fault, .. } => match fault {
                LineFault::Cut => {
                    "an R line has 14 columns, an E line 20, a D line 5 and an S line 9, and each ends with LF"
                }
                LineFault::Letter => "a line begins with R, E, D or S",
                LineFault::Column(found) => match found.refusal {
                    ReadRefusal::Form => {
                        "a right-justified number without leading zeros, or an item's word, is expected here"
                    }
                    ReadRefusal::Range => "the number is out of its range",
                },
            },
        }
    }
}

impl fmt::Display for Sentence {
    fn fmt<W: fmt::Write>(&self, f: &mut fmt::Formatter<W>) -> fmt::Result {
        let place = self.0.place();
        let expected = self.expected();
        write!(
            f,
            "line {}, column {}: {expected}",
            place.line, place.column
        )
    }
}
