// The words that lines begin with, and those of plans.
ghost use Rattle.std.specs.Prelude.{◌≡◌, map};
ghost use Rattle.lsm_shell_parts.specs.Verbs.{named, verb_of};

/// What a line begins with, or the plan of a compaction.
#[derive(Clone, Copy)]
pub enum Verb {
    Put,
    Del,
    Weak,
    Get,
    Range,
    Prefix,
    Rotate,
    Flush,
    Compact,
    Leveled,
    Major,
    Fifo,
    Drop,
    Clear,
    Now,
    Stats,
    Crash,
    Reopen,
}

/// The words, and what they stand for.
const VERBS: [(&[u8], Verb); 18] = [
    (b"put", Verb::Put),
    (b"del", Verb::Del),
    (b"weak", Verb::Weak),
    (b"get", Verb::Get),
    (b"range", Verb::Range),
    (b"prefix", Verb::Prefix),
    (b"rotate", Verb::Rotate),
    (b"flush", Verb::Flush),
    (b"compact", Verb::Compact),
    (b"leveled", Verb::Leveled),
    (b"major", Verb::Major),
    (b"fifo", Verb::Fifo),
    (b"drop", Verb::Drop),
    (b"clear", Verb::Clear),
    (b"now", Verb::Now),
    (b"stats", Verb::Stats),
    (b"crash", Verb::Crash),
    (b"reopen", Verb::Reopen),
];

/// What a word stands for.
pub fn verb_of(word: &[u8]) -> Option<Verb>
    ensures { result ≡ verb_of word.now }
{
    look_up(&VERBS, word)
}

fn look_up(table: &[(&[u8], Verb)], word: &[u8]) -> Option<Verb>
    ensures { result ≡ named (map (λ row. (row.0.now, row.1)) table.now) word.now }
{
    match table.iter().find(|row| row.0 == word) {
        Some(row) => Some(row.1),
        None => None,
    }
}
