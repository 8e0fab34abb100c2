// The theorem on the books.
ghost use Rattle.ring.specs.Books.{BooksClose, BooksFill};
ghost use Rattle.ring.specs.Origin.{ItemsAssigned};

use crate::kind::*;

// Whatever keeps the laws of a ring kind, the books of its every run close (`close`). They are not blank: each item is taken
// in some run (`fill`). And nothing is invented: an answer carries no item that was not assigned (`origin`).
pub fn books_close<I: Copy, K: RingKind<I>>()
    ensures close { BooksClose K.RingKind.step }
    ensures fill { BooksFill K.RingKind.step }
    ensures origin { ItemsAssigned K.RingKind.step }
{}
