// What the first line of a play says.
ghost use Rattle.std.specs.Prelude.{◌≡◌};
ghost use Rattle.play.specs.Kinds.{item_numbered, ring_numbered};

use columns::ReadRefusal;

// The kind of ring that a play runs on: 1 (CRQ) or 2 (PRQ) in the header.
#[derive(Clone, Copy, PartialEq, Eq, Debug)]
pub enum RingChoice {
    Crq,
    Prq,
}

// By its number in a header; any other is out of range.
impl TryFrom<u16> for RingChoice {
    type Error = ReadRefusal;

    ghost try_from_gives = { λ n r. r ≡ ring_numbered n };

    fn try_from(number: u16) -> Result<RingChoice, ReadRefusal> {
        match number {
            1 => Ok(RingChoice::Crq),
            2 => Ok(RingChoice::Prq),
            _ => Err(ReadRefusal::Range),
        }
    }
}

// The kind of item that a play enqueues: 1 (patch) or 2 (job) in the header. It has cases of its own, so its conversion too.
#[derive(Clone, Copy, PartialEq, Eq, Debug)]
pub enum ItemChoice {
    Patch,
    Job,
}

// By its number in a header; any other is out of range.
impl TryFrom<u16> for ItemChoice {
    type Error = ReadRefusal;

    ghost try_from_gives = { λ n r. r ≡ item_numbered n };

    fn try_from(number: u16) -> Result<ItemChoice, ReadRefusal> {
        match number {
            1 => Ok(ItemChoice::Patch),
            2 => Ok(ItemChoice::Job),
            _ => Err(ReadRefusal::Range),
        }
    }
}

// Ring kind, cells, workers and item kind.
#[derive(Clone, Copy, PartialEq, Eq, Debug)]
pub struct Header {
    pub ring: RingChoice,
    pub cells: u32,
    pub workers: u32,
    pub items: ItemChoice,
}
