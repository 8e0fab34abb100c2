// What a line after the header orders.
use items::ITEM_WIDTH;
use tickets::WorkerNo;

// An order of a play. An enqueue keeps its item's columns as a part of the play.
#[derive(Clone, Copy)]
pub enum Order<'a> {
    Enqueue {
        worker: WorkerNo,
        columns: &'a [u8; ITEM_WIDTH],
    },
    Dequeue {
        worker: WorkerNo,
    },
    Steps {
        worker: WorkerNo,
        count: u16,
    },
}
