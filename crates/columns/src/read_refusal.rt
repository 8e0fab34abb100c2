// Why columns are not read.
ghost use Rattle.std.specs.Prelude.{◌≡◌};
ghost use Rattle.columns.specs.Refusals.{read_refusal_number};

// Form: the columns write no number. Range: they write one that is out of range.
#[derive(Clone, Copy, PartialEq, Eq, Debug)]
pub enum ReadRefusal {
    Form = 23,
    Range = 24,
}

impl ReadRefusal {
    // 23 form, 24 range.
    pub fn number(self) -> u16
        ensures { result ≡ read_refusal_number self }
    {
        self as u16
    }
}
