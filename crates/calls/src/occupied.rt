// The number of occupied cells.
ghost use Rattle.std.specs.Prelude.{◌≡◌};
ghost use Rattle.ring.specs.Table.{occupied_cells};

use ring::table::*;

// How many cells have an item. A `for` loop over the cells, whose form the project fixed.
pub fn count_occupied<I: Copy>(cells: &[Cell<I>]) -> usize
    ensures { result ≡ occupied_cells cells.now }
{
    let mut count = 0;
    for cell in cells {
        if cell.value.is_item() {
            count += 1;
        }
    }
    count
}
