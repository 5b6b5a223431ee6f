// The entries of a memtable as a source of a merge.
ghost use Rattle.lsm_below.specs.Slots.{rest_of};

use lsm_below::{Error, Headed, Source};
use lsm_memtable::Iter;

/// The entries of a memtable in order, as a source. It lends them out of the memtable, and refuses none.
#[derive(Drop)]
pub struct MemtableSource<'a> {
    pub(crate) entries: Iter<'a>,
    pub(crate) over: bool,
}

impl<'a> Source for MemtableSource<'a> {
    type Item = Headed<'a>;

    type Error = Error;

    ghost rest = { λ s. rest_of s.over s.entries };

    ghost may_refuse = { λ _. ⊥ };

    fn next_entry(&mut self) -> Option<Result<Headed<'a>, Error>> {
        if self.over {
            return None;
        }
        let Some(entry) = self.entries.first_headed() else {
            self.over = true;
            return None;
        };
        self.entries.drop_first();
        Some(Ok(entry))
    }
}
