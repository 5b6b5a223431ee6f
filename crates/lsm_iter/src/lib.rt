//! Ranges: iterators over what a snapshot shows, from both ends.
//!
//! | Module | Holds |
//! |-|-|
//! | `prefix` | the bounds of the keys that begin alike |
//! | `iter_state` | what an iterator reads |
//! | `sources`, `parts` | what reads a source, and what is left of the tables of a run, whether they are shared or lent |
//! | `cursor`, `copies`, `trim` | what an iterator keeps of its sources, from both ends: copies of a memtable's entries, and shares of tables |
//! | `outermost` | the first key that cursors have, seen from an end |
//! | `tree_iter` | an iterator over what a snapshot shows, from both ends |
//! | `lender`, `walk`, `cut` | the same of sources that are lent: of a memtable, of a table in bounds |
//! | `lending` | the first key that lenders have, seen from an end |
//! | `pairs` | what a snapshot shows, lent by the tree |
//! | `shown_ends` | the entry at an end of what a snapshot shows, and how many there are |
//! | `guard` | what an iterator over pairs returns |
//! | `laws` | what the list of what is shown is in the theory's words |
#![tactic(auto)]

mod copies;
mod cursor;
mod cut;
mod guard;
mod iter_state;
mod laws;
mod lender;
mod lending;
mod outermost;
mod pairs;
mod parts;
mod prefix;
mod shown_ends;
mod sources;
mod tree_iter;
mod trim;
mod walk;

pub use guard::{Guard, IterGuard, RangeItem};
pub use iter_state::{IterState, Overlay};
pub use laws::shown_is_the_view;
pub use lsm_below::Error;
use lsm_memtable::Memtable;
use lsm_versions::Version;
pub use pairs::Pairs;
pub use prefix::prefix_to_range;
pub use shown_ends::{count_shown, end_shown};
pub use tree_iter::{End, TreeIter, take_ends};
