// Why a number is not written.
ghost use Rattle.std.specs.Prelude.{◌≡◌};
ghost use Rattle.columns.specs.Refusals.{write_refusal_number};

// Narrow: the buffer is shorter than the text. Range: the number does not fit its columns.
#[derive(Clone, Copy, PartialEq, Eq, Debug)]
pub enum WriteRefusal {
    Narrow = 18,
    Range = 24,
}

impl WriteRefusal {
    // 18 narrow, 24 range.
    pub fn number(self) -> u16
        ensures { result ≡ write_refusal_number self }
    {
        self as u16
    }
}
