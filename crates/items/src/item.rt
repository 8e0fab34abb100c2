// What every kind of item promises.
ghost use Rattle.std.specs.Prelude.{◌≡◌, ℕ, List, length, Some, Ok, Option, Result};
ghost use Rattle.std.specs.Option.{ok_or};
ghost use Rattle.columns.specs.declared.fault.ColumnFault.{ColumnFault};
ghost use Rattle.columns.specs.declared.write_refusal.WriteRefusal.TheVariants.{Range};
ghost use Rattle.items.specs.ItemText.{Printed, item_width, item_written};

use columns::{ColumnFault, WriteRefusal};

// How many columns an item takes.
pub const ITEM_WIDTH: usize = 15;

// An item that is written into fifteen columns and read back. Rings move items and never look into them.
pub trait ItemKind: Copy + Sized {
    // The columns that the item writes; none where one of its numbers is out of range.
    ghost text: { Self → Option (List ℕ) };

    // The item that columns write, or the first faulty field from the left.
    ghost reading: { List ℕ → Result Self ColumnFault };

    // The item that the columns write, or the first faulty field from the left.
    fn read(columns: &[u8; ITEM_WIDTH]) -> Result<Self, ColumnFault>
        ensures { result ≡ reading columns.now };

    // The item's text; refused where a number is out of range.
    fn columns(self) -> Result<[u8; ITEM_WIDTH], WriteRefusal>
        ensures { result ≡ ok_or (text self) Range };

    // Writes the text over the first columns of the buffer; bytes past it stay, and a refusal leaves them all.
    fn write(self, buffer: &mut [u8]) -> Result<(), WriteRefusal>
        ensures { (result, buffer.new) ≡ item_written (text self) buffer.old }
    {
        if buffer.len() < ITEM_WIDTH {
            return Err(WriteRefusal::Narrow);
        }
        let columns = self.columns()?;
        buffer[0..ITEM_WIDTH].copy_from_slice(&columns);
        Ok(())
    }

    // What was written reads back as that item.
    ghost back: { (x : Self) (cs : List ℕ) → text x ≡ Some cs → reading cs ≡ Ok x };

    // Columns that are accepted are those that the item would write.
    ghost only: { (cs : List ℕ) (x : Self) → length cs ≡ item_width → reading cs ≡ Ok x → text x ≡ Some cs };

    // An item's text has fifteen columns.
    ghost wide: { (x : Self) (cs : List ℕ) → text x ≡ Some cs → length cs ≡ item_width };

    // Each of them is a blank or visible ASCII.
    ghost printed: { (x : Self) (cs : List ℕ) → text x ≡ Some cs → Printed cs };
}
