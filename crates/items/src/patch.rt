// A patch: a face, a zone and a level.
ghost use Rattle.items.specs.Patch.{patch_reading, patch_text};
ghost use Rattle.items.specs.Patches.{patch_back, patch_only, patch_wide, patch_printed};

use crate::item::{ITEM_WIDTH, ItemKind};
use columns::{ColumnFault, WriteRefusal, at_column, read_number, write_number};

// A wall patch, by its numbers.
#[derive(Clone, Copy, PartialEq, Eq, Debug)]
pub struct Patch {
    pub face: u32,
    pub zone: u16,
    pub level: i16,
}

// The columns of each field: how many stand before it, and how many it has.
const FACE_WIDTH: usize = 8;

const ZONE_START: usize = FACE_WIDTH;

const ZONE_WIDTH: usize = 4;

const LEVEL_START: usize = ZONE_START + ZONE_WIDTH;

const LEVEL_WIDTH: usize = 3;

const FACE_MOST: u32 = 99_999_999;

const ZONE_MOST: u16 = 9_999;

const LEVEL_LEAST: i16 = -99;

const LEVEL_MOST: i16 = 999;

// Columns 1 to 8, 9 to 12 and 13 to 15.
impl ItemKind for Patch {
    ghost text = { patch_text };

    ghost reading = { patch_reading };

    ghost back = { patch_back };

    ghost only = { patch_only };

    ghost wide = { patch_wide };

    ghost printed = { patch_printed };

    // Each field by its own columns: a function for it would be public here and in play, and could not require its columns.
    fn read(columns: &[u8; ITEM_WIDTH]) -> Result<Patch, ColumnFault> {
        let face = at_column(1, read_number(&columns[0..FACE_WIDTH], 0, FACE_MOST))?;
        let zone = at_column(
            ZONE_START + 1,
            read_number(&columns[ZONE_START..LEVEL_START], 0, ZONE_MOST),
        )?;
        let level = at_column(
            LEVEL_START + 1,
            read_number(&columns[LEVEL_START..ITEM_WIDTH], LEVEL_LEAST, LEVEL_MOST),
        )?;
        Ok(Patch { face, zone, level })
    }

    fn columns(self) -> Result<[u8; ITEM_WIDTH], WriteRefusal> {
        let mut columns = [b' '; ITEM_WIDTH];
        write_number(&mut columns[0..FACE_WIDTH], FACE_WIDTH, self.face)?;
        write_number(&mut columns[ZONE_START..LEVEL_START], ZONE_WIDTH, self.zone)?;
        write_number(
            &mut columns[LEVEL_START..ITEM_WIDTH],
            LEVEL_WIDTH,
            self.level,
        )?;
        Ok(columns)
    }
}
