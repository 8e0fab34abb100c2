// The orders of a body, one after the other.
ghost use Rattle.std.specs.Prelude.{length};
ghost use Rattle.std.specs.Iterator.{at_most};
ghost use Rattle.play.specs.Promise.{FirstOrder, OrderGiven};

use crate::body::{LF, open_order};
use crate::header::ItemChoice;
use crate::letter::Letter;
use crate::line::read_order;
use crate::order::Order;

// An order, and what stands behind it.
#[derive(Clone, Copy)]
pub struct Next<'a> {
    pub order: Order<'a>,
    pub rest: &'a [u8],
}

// The order that the first line says; none where it says none, or nothing is left.
pub fn next_order<'a>(items: ItemChoice, rest: &'a [u8]) -> Option<Next<'a>>
    ensures { FirstOrder items rest.now result }
{
    let first = rest.first()?;
    // a fault's line does not matter here: a fault is no order
    let letter = open_order(char::from(*first), 1).ok()?;
    // columns and LF by their places: of a split the second part would have to give up its LF again
    let width = Letter::Order(letter).width();
    if rest.len() <= width || rest[width] != LF {
        return None;
    }
    let order = read_order(items, letter, &rest[0..width]).ok()?;
    Some(Next {
        order,
        rest: &rest[width + 1..],
    })
}

// The orders of a body, from the first on, up to what is no order.
#[derive(Clone, Copy)]
pub struct Orders<'a> {
    pub items: ItemChoice,
    pub rest: &'a [u8],
}

impl<'a> Iterator for Orders<'a> {
    type Item = Order<'a>;

    ghost next_gives = { OrderGiven };

    ghost remaining = { λ s. at_most (length s.rest.now) };

    fn next(&mut self) -> Option<Order<'a>> {
        let next = next_order(self.items, self.rest)?;
        self.rest = next.rest;
        Some(next.order)
    }
}
