// What compactions leave of reads, as the contract of a function.
ghost use Rattle.lsm_journal.specs.NotedReads.{NotedCompactionsKeepReads};

use lsm_model::reads_are_sound;
use lsm_state::compactions_keep_reads;

/// No compaction changes what a snapshot sees that is answered before and after, but for a drop those above its number; and
/// after what it tells reads are right where they were. The end of a merge is such where its watermark was marked before, as
/// its beginning does.
pub fn noted_compactions_keep_reads()
    ensures { NotedCompactionsKeepReads }
{
    reads_are_sound();
    compactions_keep_reads();
}
