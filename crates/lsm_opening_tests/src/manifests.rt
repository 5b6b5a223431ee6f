// The bytes of versions' files, and what they tell.

use crate::samples::{
    FORMAT_3, FORMAT_4, FROM_0, FROM_1, File, Format, NO_FORMATS, NO_TABLE, ONE_TABLE, Told,
    UNRECOVERABLE, bytes_of, is_told,
};
use lsm_manifest::{
    FormatVersion, Manifest, decode_layout, no_version_begins_another, read_current, write_current,
};
use lsm_state::{Error, TreeType};
use std::alloc::{AllocError, Global};
use std::test::Fail;

/// Id 5, and the sum of the file with one table, whose log is read from 1 on.
pub const CURRENT: [u8; 25] = [
    5, 0, 0, 0, 0, 0, 0, 0, 0x34, 0x64, 0xdf, 0x9a, 0x19, 0x43, 0x35, 0x6d, 0xca, 0x17, 0x0f, 0xfc,
    0x49, 0x3c, 0xa0, 0x4b, 0,
];

const SUM: u128 = 100524089987474814240686345446072738868;

/// The same in format 3.
pub const CURRENT_3: [u8; 25] = [
    5, 0, 0, 0, 0, 0, 0, 0, 0xb0, 0xdc, 0xfe, 0xc0, 0x45, 0x46, 0x30, 0x0c, 0x65, 0x0d, 0x1d, 0x7c,
    0x7b, 0x6e, 0xb3, 0x27, 0,
];

const SUM_3: u128 = 52771553821821107448394913108144872624;

/// Whether the file names just this table.
fn names(alloc: Global, file: &[u8], id: u64) -> Result<bool, Error> {
    let levels = decode_layout(alloc, file)?;
    Ok(
        levels.len() == 7
            && levels[0].len() == 1
            && levels[0][0].len() == 1
            && levels[0][0][0].id == id
            && levels[1].is_empty(),
    )
}

/// Whether files in this format have these lengths, and the second one names a table.
fn is_spelled(alloc: Global, format: Format, none: usize, one: usize) -> Result<bool, Error> {
    let empty = bytes_of(alloc, format, (&NO_TABLE, &[], &[]))?;
    let bytes = bytes_of(alloc, format, (&ONE_TABLE, &[], &[]))?;
    Ok(empty.len() == none && bytes.len() == one && names(alloc, &bytes, 3)?)
}

#[test]
fn files_are_spelled(rt: HostRuntime) -> Result<(), Fail> {
    no_version_begins_another();
    assert!(rt; is_spelled(rt.alloc(), FORMAT_3, 141, 178)?);
    assert!(rt; is_spelled(rt.alloc(), FORMAT_4, 166, 203)?);
    for (sum, current) in [(SUM, CURRENT), (SUM_3, CURRENT_3)] {
        assert!(rt; write_current(5, sum) == current);
        assert!(rt; read_current(&current) == Some((5, sum)));
        assert!(rt; read_current(&current[1..]).is_none());
    }
    Ok(())
}

/// What a file with one table has at some places and after it, and how it is refused.
const REFUSALS: [(&[(usize, u8)], &[u8], Told); 5] = [
    (&[(23, 2), (70, 1)], &[], (5, "", 2)),
    (&[(70, 1), (91, 6)], &[], (6, "TreeType", 1)),
    (&[(91, 6)], &[], UNRECOVERABLE),
    (&[(117, 1)], &[], UNRECOVERABLE),
    (&[(23, 2)], &[0], UNRECOVERABLE),
];

/// Whether the file with one table tells this format, or is refused so.
fn decodes(
    alloc: Global,
    format: Format,
    file: File<'_>,
    wanted: Result<FormatVersion, Told>,
) -> Result<bool, AllocError> {
    let bytes = bytes_of(alloc, format, file)?;
    Ok(match (Manifest::decode_from(&bytes), wanted) {
        (Ok(manifest), Ok(version)) => {
            manifest.version == version
                && manifest.tree_type == TreeType::Standard
                && manifest.level_count == 7
        }
        (Err(error), Err(told)) => is_told(&error, told),
        _ => false,
    })
}

const ONE: File<'static> = (&ONE_TABLE, &[], &[]);

#[test]
fn formats_are_told(rt: HostRuntime) -> Result<(), Fail> {
    let formats = [
        (FORMAT_3, FormatVersion::V3),
        (FORMAT_4, FormatVersion::V4),
        ((4, &FROM_1), FormatVersion::V4),
    ];
    for (format, version) in formats {
        assert!(rt;
            decodes(rt.alloc(), format, ONE, Ok(version))?,
            "{format:?}"
        );
        for (changed, tail, told) in REFUSALS {
            let file = (ONE_TABLE.as_slice(), changed, tail);
            assert!(rt; decodes(rt.alloc(), format, file, Err(told))?, "{told:?}");
        }
    }
    for (format, told) in NO_FORMATS {
        assert!(rt; decodes(rt.alloc(), format, ONE, Err(told))?, "{format:?}");
    }
    Ok(())
}

/// How a format byte other than 3 and 4 is refused, and each of these two beside the other's sections.
#[test]
fn each_byte_is_a_format_or_refused(rt: HostRuntime) -> Result<(), Fail> {
    for byte in 0..=255u8 {
        for sections in [FORMAT_3.1, FORMAT_4.1] {
            let wanted = match (byte, sections.is_empty()) {
                (3, true) => Ok(FormatVersion::V3),
                (4, false) => Ok(FormatVersion::V4),
                (3 | 4, _) => Err(UNRECOVERABLE),
                _ => Err((5, "", byte)),
            };
            assert!(rt;
                decodes(rt.alloc(), (byte, sections), ONE, wanted)?,
                "{byte}"
            );
        }
    }
    Ok(())
}
