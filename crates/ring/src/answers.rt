// What a call answers, and why it refuses. Numbers are given by definitions, which every promise cites.
ghost use Rattle.std.specs.Prelude.{◌≡◌};
ghost use Rattle.ring.specs.Answers.{answer_number, answer_ticket, answer_item, ends_operation, refusal_number, reply_number};

use tickets::*;

// An answer with a ticket carries the worker's; one with an item, the item placed, taken or handed back.
#[derive(Clone, Copy)]
pub enum Answer<I> {
    Assigned,
    Working,
    Placed(Ticket, I),
    Taken(Ticket, I),
    PassedOver(Ticket),
    Empty(Ticket),
    Full(Ticket, I),
    Closed(Ticket, I),
}

// Why a call is refused, each by its number. A refusal leaves everything as it was.
#[derive(Clone, Copy, PartialEq, Eq, Debug)]
pub enum Refusal {
    Ring = 11,
    Crew = 12,
    Misfit = 13,
    Nobody = 14,
    Busy = 15,
    Idle = 16,
    Spent = 17,
}

impl<I: Copy> Answer<I> {
    // 0 assigned, 1 working, 2 placed, 3 taken, 4 passed over, 5 empty, 6 full, 7 closed.
    // A match: `as` gives the number of a case only where no case carries anything, and here most carry a ticket.
    pub fn number(self) -> u8
        ensures { result ≡ answer_number self }
    {
        match self {
            Answer::Assigned => 0,
            Answer::Working => 1,
            Answer::Placed(_, _) => 2,
            Answer::Taken(_, _) => 3,
            Answer::PassedOver(_) => 4,
            Answer::Empty(_) => 5,
            Answer::Full(_, _) => 6,
            Answer::Closed(_, _) => 7,
        }
    }

    // The ticket of answers 2 to 7.
    pub fn ticket(self) -> Option<Ticket>
        ensures { result ≡ answer_ticket self }
    {
        match self {
            Answer::Assigned | Answer::Working => None,
            Answer::Placed(ticket, _) | Answer::Taken(ticket, _) => Some(ticket),
            Answer::PassedOver(ticket) | Answer::Empty(ticket) => Some(ticket),
            Answer::Full(ticket, _) | Answer::Closed(ticket, _) => Some(ticket),
        }
    }

    // The item of answers 2, 3, 6 and 7.
    pub fn item(self) -> Option<I>
        ensures { result ≡ answer_item self }
    {
        match self {
            Answer::Placed(_, item) | Answer::Taken(_, item) => Some(item),
            Answer::Full(_, item) | Answer::Closed(_, item) => Some(item),
            Answer::Assigned | Answer::Working | Answer::PassedOver(_) | Answer::Empty(_) => None,
        }
    }

    // Answers 2, 3, 5, 6 and 7 end the operation: the worker is idle after them.
    pub fn ends(self) -> bool
        ensures { result ≡ ends_operation self }
    {
        match self {
            Answer::Assigned | Answer::Working | Answer::PassedOver(_) => false,
            Answer::Placed(_, _) | Answer::Taken(_, _) | Answer::Empty(_) => true,
            Answer::Full(_, _) | Answer::Closed(_, _) => true,
        }
    }
}

impl Refusal {
    // 11 ring, 12 crew, 13 misfit, 14 nobody, 15 busy, 16 idle, 17 spent.
    pub fn number(self) -> u8
        ensures { result ≡ refusal_number self }
    {
        self as u8
    }
}

// The number of what a call replies: its answer's, or its refusal's.
pub fn reply_number<I: Copy>(reply: Result<Answer<I>, Refusal>) -> u8
    ensures { result ≡ reply_number reply }
{
    match reply {
        Ok(answer) => answer.number(),
        Err(refusal) => refusal.number(),
    }
}
