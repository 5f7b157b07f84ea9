// The words of a task table: read, with the refusals of the doors themselves, and written.
ghost use Rattle.std.specs.Prelude.{◌≡◌, ◌++◌, ◌+◌, ◌≤◌, length};
ghost use Rattle.std.proofs.lemmas.List.Edits.{sets};
ghost use Rattle.refusal.specs.Refusal.{answer_of};
ghost use Rattle.words.specs.Table.{table_words, table_in, table_at};

use crate::block::{block, put_block};
use refusal::Refusal;
use table::{Table, check_table};

// Word by word; nothing is asked of the numbers yet. A count is 64 bits in the word and in the table, so that none is cut.
pub fn table_of(words: &[u64]) -> Table
    requires { length words.now ≡ 259 }
    ensures { result ≡ table_in words.now }
{
    let longest = block(words, 3);
    let distance = block(words, 67);
    let deadline = block(words, 131);
    let slack = block(words, 195);
    Table {
        nodes: words[0],
        timeout: words[1],
        count: words[2] as usize,
        longest,
        distance,
        deadline,
        slack,
    }
}

// The table that stands in words: 100, then 101, whatever the fault of the table.
pub fn table_in(words: &[u64]) -> Result<Table, Refusal>
    ensures { answer_of result ≡ table_at words.now }
{
    if words.len() != 259 {
        return Err(Refusal::WrongLength);
    }
    let table = table_of(words);
    match check_table(table) {
        Ok(()) => Ok(table),
        Err(_) => Err(Refusal::WrongTable),
    }
}

// Two blocks put in, one behind the other.
fn put_two(words: &mut [u64], from: usize, first: [u64; 64], second: [u64; 64])
    requires { from + 128 ≤ length words.old }
    ensures { words.new ≡ sets words.old from (first ++ second) }
{
    put_block(words, from, first);
    put_block(words, from + 64, second);
}

// The words of a table, all of them written.
pub fn put_table(words: &mut [u64], t: Table)
    requires { length words.old ≡ 259 }
    ensures { words.new ≡ table_words t }
{
    let longest = t.longest;
    let distance = t.distance;
    let deadline = t.deadline;
    let slack = t.slack;
    words[0] = t.nodes;
    words[1] = t.timeout;
    words[2] = t.count as u64;
    put_two(words, 3, longest, distance);
    put_two(words, 131, deadline, slack);
}
