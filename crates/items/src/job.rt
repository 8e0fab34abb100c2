// A job: a word, and a number behind two of the words.
ghost use Rattle.std.specs.Prelude.{◌≡◌};
ghost use Rattle.std.specs.Option.{ok_or};
ghost use Rattle.columns.specs.declared.write_refusal.WriteRefusal.TheVariants.{Range};
ghost use Rattle.items.specs.Job.{bare, job_of, job_reading, job_text, number_reading, numbered_text};
ghost use Rattle.items.specs.Jobs.{job_back, job_only, job_wide, job_printed};

use crate::item::{ITEM_WIDTH, ItemKind};
use columns::{ColumnFault, ReadRefusal, WriteRefusal, at_column, read_number, write_number};

// What a solver is told to do.
#[derive(Clone, Copy, PartialEq, Eq, Debug)]
pub enum Job {
    Block(u32),
    Sweep(u32),
    Flush,
    Stop,
}

// The word, and behind it the number.
const WORD_WIDTH: usize = 6;

const NUMBER_COLUMN: usize = WORD_WIDTH + 1;

const NUMBER_WIDTH: usize = 9;

const NUMBER_MOST: u32 = 999_999_999;

// Columns 1 to 6 and 7 to 15.
impl ItemKind for Job {
    ghost text = { job_text };

    ghost reading = { job_reading };

    ghost back = { job_back };

    ghost only = { job_only };

    ghost wide = { job_wide };

    ghost printed = { job_printed };

    fn read(columns: &[u8; ITEM_WIDTH]) -> Result<Job, ColumnFault> {
        let (word, rest) = columns.split_at(WORD_WIDTH);
        job_of(word, rest)
    }

    fn columns(self) -> Result<[u8; ITEM_WIDTH], WriteRefusal> {
        match self {
            Job::Block(n) => numbered(b" block", n),
            Job::Sweep(n) => numbered(b" sweep", n),
            Job::Flush => Ok(*b" flush         "),
            Job::Stop => Ok(*b"  stop         "),
        }
    }
}

// The word first, then what stands behind it.
fn job_of(word: &[u8], rest: &[u8]) -> Result<Job, ColumnFault>
    ensures { result ≡ job_of word.now rest.now }
{
    match word {
        b" block" => Ok(Job::Block(read_behind(rest)?)),
        b" sweep" => Ok(Job::Sweep(read_behind(rest)?)),
        b" flush" => bare(Job::Flush, rest),
        b"  stop" => bare(Job::Stop, rest),
        _ => Err(ColumnFault {
            column: 1,
            refusal: ReadRefusal::Form,
        }),
    }
}

// The number behind a word. Inlined, as `read_number` is: its columns are known where a job is read.
#[inline(always)]
fn read_behind(rest: &[u8]) -> Result<u32, ColumnFault>
    ensures { result ≡ number_reading rest.now }
{
    at_column(NUMBER_COLUMN, read_number(rest, 0, NUMBER_MOST))
}

// A job with no number has blanks behind its word.
fn bare(job: Job, rest: &[u8]) -> Result<Job, ColumnFault>
    ensures { result ≡ bare job rest.now }
{
    if rest == b"         ".as_slice() {
        return Ok(job);
    }
    Err(ColumnFault {
        column: NUMBER_COLUMN,
        refusal: ReadRefusal::Form,
    })
}

// A word with its number behind it.
fn numbered(word: &[u8; WORD_WIDTH], n: u32) -> Result<[u8; ITEM_WIDTH], WriteRefusal>
    ensures { result ≡ ok_or (numbered_text word.now n) Range }
{
    let mut columns = [b' '; ITEM_WIDTH];
    columns[0..WORD_WIDTH].copy_from_slice(word);
    write_number(&mut columns[WORD_WIDTH..ITEM_WIDTH], NUMBER_WIDTH, n)?;
    Ok(columns)
}
