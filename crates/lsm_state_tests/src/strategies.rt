// What strategies do to a tree, by its numbers, its levels and what it shows.
use crate::compactions::THREE;
use crate::rows::Row::{Does, Has, Shows};
use crate::rows::{ABSENT, Count, TOO_OLD};
use crate::samples::Edge::{In, Out};
use crate::scripts::Part::Plays;
use crate::scripts::{Script, play_all};
use crate::steps::Step::{Compact, Flush, Now, Set};
use crate::steps::Told::{Done, Installed, Nothing, Number};
use crate::works::Work;

const LEVELED: [Script; 2] = [
    (
        "a leveled compaction merges four runs",
        &[Plays(&[
            Does(Set("a", "1"), Number(0)),
            Does(Flush(0), Done),
            Does(Set("a", "2"), Number(2)),
            Does(Flush(0), Done),
            Does(Set("a", "3"), Number(4)),
            Does(Flush(0), Done),
            Does(Compact(Work::Leveled(0)), Nothing),
            Does(Set("a", "4"), Number(6)),
            Does(Flush(0), Done),
            Does(Compact(Work::Leveled(8)), Installed),
            Has(Count::Runs, 0),
            Has(Count::Tables, 1),
            Has(Count::Level(6), 1),
            Has(Count::Level(7), ABSENT),
            Has(Count::Entries, 1),
            Shows("a", 9, "4"),
            Shows("a", 7, TOO_OLD),
        ])],
    ),
    // The table of a = 1 is moved, so no other is made; that of a = 2 stays, and those of a = 2 and a = 3 are merged above
    // the first, and then with it.
    (
        "two levels are filled and merged",
        &[Plays(&[
            Does(Set("a", "1"), Number(0)),
            Does(Flush(0), Done),
            Does(Compact(Work::Small), Installed),
            Has(Count::Level(0), 0),
            Has(Count::Level(5), 0),
            Has(Count::Level(6), 1),
            Has(Count::Tables, 1),
            Has(Count::Next, 3),
            Has(Count::NextTable, 1),
            Does(Set("a", "2"), Number(3)),
            Does(Flush(0), Done),
            Does(Compact(Work::Small), Nothing),
            Has(Count::Level(0), 1),
            Has(Count::Level(5), 0),
            Has(Count::Level(6), 1),
            Has(Count::Tables, 2),
            Has(Count::Next, 5),
            Does(Set("a", "3"), Number(5)),
            Does(Flush(0), Done),
            Does(Compact(Work::Small), Installed),
            Has(Count::Level(0), 0),
            Has(Count::Level(5), 1),
            Has(Count::Level(6), 1),
            Has(Count::Tables, 2),
            Has(Count::Next, 8),
            Has(Count::Entries, 3),
            Does(Compact(Work::Small), Installed),
            Has(Count::Level(0), 0),
            Has(Count::Level(5), 0),
            Has(Count::Level(6), 1),
            Has(Count::Tables, 1),
            Has(Count::Next, 9),
            Has(Count::Entries, 3),
            Shows("a", 9, "3"),
        ])],
    ),
];

const DROPS: [Script; 3] = [
    (
        "fifo drops what passes its limit",
        &[
            Plays(&THREE),
            Plays(&[
                Has(Count::Tables, 3),
                Has(Count::Bytes, 111),
                Does(Compact(Work::Fifo(1, None, 3)), Installed),
                Has(Count::Tables, 0),
            ]),
        ],
    ),
    (
        "fifo drops what is too old",
        &[Plays(&[
            Does(Now(1000), Done),
            Does(Set("a", "x"), Number(0)),
            Does(Flush(0), Done),
            Does(Now(1005), Done),
            Does(Set("b", "x"), Number(2)),
            Does(Flush(0), Done),
            Does(Now(1011), Done),
            Has(Count::Tables, 2),
            Has(Count::Runs, 1),
            Does(Compact(Work::Fifo(u64::MAX, Some(10), 0)), Installed),
            Has(Count::Tables, 1),
            Shows("a", 5, ""),
            Shows("b", 5, "x"),
        ])],
    ),
    (
        "a range is dropped with the tables within",
        &[
            Plays(&THREE),
            Plays(&[
                Does(Compact(Work::DropRange(In(b"a"), In(b"b"))), Installed),
                Has(Count::Tables, 1),
                Shows("b", 7, ""),
                Shows("c", 7, "x"),
                Shows("b", 6, "x"),
                Does(Compact(Work::DropRange(Out(b"b"), Out(b"b"))), Installed),
                Does(Compact(Work::DropRange(In(b"c"), In(b"a"))), Nothing),
                Has(Count::Tables, 1),
                Has(Count::Next, 8),
                Does(Set("b", "z"), Number(8)),
                Shows("b", 9, "z"),
            ]),
        ],
    ),
];

#[test]
fn strategies_fill_levels_and_drop_tables(rt: HostRuntime) {
    play_all(&rt, rt.alloc(), &LEVELED);
    play_all(&rt, rt.alloc(), &DROPS);
}
