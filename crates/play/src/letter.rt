// The letter in column 1, which decides the line.
ghost use Rattle.std.specs.Prelude.{◌≡◌};
ghost use Rattle.play.specs.Letters.{letter_of, width_of};

// The letter of a line that orders something.
#[derive(Clone, Copy, PartialEq, Eq, Debug)]
pub enum OrderLetter {
    Enqueue,
    Dequeue,
    Steps,
}

// The letter of a header, or of a line that orders something.
#[derive(Clone, Copy, PartialEq, Eq, Debug)]
pub enum Letter {
    Ring,
    Order(OrderLetter),
}

impl Letter {
    // What the letter stands for, if it is one of a play's. A match on a `char`, the form that the project fixed.
    pub fn of(letter: char) -> Option<Letter>
        ensures { result ≡ letter_of letter }
    {
        match letter {
            'R' => Some(Letter::Ring),
            'E' => Some(Letter::Order(OrderLetter::Enqueue)),
            'D' => Some(Letter::Order(OrderLetter::Dequeue)),
            'S' => Some(Letter::Order(OrderLetter::Steps)),
            _ => None,
        }
    }

    // How many columns its line has, without the LF.
    pub fn width(self) -> usize
        ensures { result ≡ width_of self }
    {
        match self {
            Letter::Ring => 14,
            Letter::Order(OrderLetter::Enqueue) => 20,
            Letter::Order(OrderLetter::Dequeue) => 5,
            Letter::Order(OrderLetter::Steps) => 9,
        }
    }
}
