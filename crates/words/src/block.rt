// Stretches of words, copied out of lent words and into them: 64 numbers of the tasks, or the tasks of 256 places.
ghost use Rattle.std.specs.Prelude.{◌≡◌, ◌+◌, ◌≤◌, length, take, drop};
ghost use Rattle.std.proofs.lemmas.List.Edits.{sets};
ghost use Rattle.words.specs.Words.{BytesIn};

// 64 words, from a place on.
pub fn block(words: &[u64], from: usize) -> [u64; 64]
    requires { from + 64 ≤ length words.now }
    ensures { result ≡ take 64 (drop from words.now) }
{
    let mut out = [0; 64];
    out.copy_from_slice(&words[from..from + 64]);
    out
}

// 64 words put in, from a place on.
#[tactic(auto, using(crate::proofs::Copies::part_put))]
pub fn put_block(words: &mut [u64], from: usize, block: [u64; 64])
    requires { from + 64 ≤ length words.old }
    ensures { words.new ≡ sets words.old from block }
{
    words[from..from + 64].copy_from_slice(&block);
}

// 256 words that are bytes, from a place on.
pub fn tasks_in(words: &[u64], from: usize) -> [u8; 256]
    requires from_in_bounds { from + 256 ≤ length words.now }
    requires bytes_in { BytesIn 256 from words.now }
    ensures { result ≡ take 256 (drop from words.now) }
{
    let mut out = [0; 256];
    for (i, x) in words[from..from + 256].iter().enumerate() {
        out[i] = *x as u8;
    }
    out
}

// 256 bytes put in as words, from a place on.
pub fn put_tasks(words: &mut [u64], from: usize, tasks: [u8; 256])
    requires { from + 256 ≤ length words.old }
    ensures { words.new ≡ sets words.old from tasks }
{
    for (i, task) in tasks.iter().enumerate() {
        words[from + i] = u64::from(*task);
    }
}
