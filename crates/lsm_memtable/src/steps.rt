// Counts of what a call does.
ghost use Rattle.std.specs.Prelude.{◌≡◌, ◌+◌};
ghost use Rattle.lsm_below.specs.Sums.{capped};

/// How many keys were compared, and how many entries moved that were there, each up to 2^64 - 1, and in how many blocks the
/// entries stood when the last call began that counts.
///
/// # Examples
///
/// ```text
/// let mut steps = Steps::new();
/// let newest = memtable.get_counted(b"key", snapshot, &mut steps);
/// let compared = steps.compared;
/// ```
#[derive(Drop)]
pub struct Steps {
    pub compared: u64,
    pub moved: u64,
    pub blocks: u64,
}

impl Steps {
    /// Nothing counted yet.
    pub fn new() -> Steps
        ensures { result ≡ record { compared = 0; moved = 0; blocks = 0 } }
    {
        Steps {
            compared: 0,
            moved: 0,
            blocks: 0,
        }
    }

    /// Counts a comparison.
    pub fn tick_compared(&mut self)
        ensures compared { self.new.compared ≡ capped (self.old.compared + 1) }
        ensures moved { self.new.moved ≡ self.old.moved }
    {
        self.compared = self.compared.saturating_add(1);
    }

    /// Counts an entry that moves.
    pub fn tick_moved(&mut self)
        ensures compared { self.new.compared ≡ self.old.compared }
        ensures moved { self.new.moved ≡ capped (self.old.moved + 1) }
    {
        self.moved = self.moved.saturating_add(1);
    }

    /// Counts so many entries that move.
    pub(crate) fn tick_moves(&mut self, count: usize)
        ensures compared { self.new.compared ≡ self.old.compared }
        ensures moved { self.new.moved ≡ capped (self.old.moved + count) }
    {
        self.moved = self.moved.saturating_add(count as u64);
    }
}
