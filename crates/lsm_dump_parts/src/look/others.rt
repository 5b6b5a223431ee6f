// Names that no version names, names that are refused, and those for which a folder is none of a tree's.
use crate::look::Damage;
use crate::look::version::Named;
use lsm_below::{TableId, parse_number};
use lsm_log::LogName;
use lsm_manifest::{NameKind, version_name};
use lsm_store::missing_current;
use lsm_versions::VersionId;
use std::alloc::{AllocError, Global};

/// Names beside those of the current version and the log.
#[derive(Drop)]
pub(crate) struct Others {
    /// Files of versions and tables that the current version doesn't name. Opening removes them.
    pub(crate) orphans: Vec<String>,
    /// Names that are none of a tree's, which opening leaves alone.
    pub(crate) foreign: Vec<String>,
    /// Names for which a tree or its log is refused.
    pub(crate) damage: Vec<Damage>,
}

/// What becomes of a name.
enum Fate {
    Counts,
    Orphan,
    Foreign,
    /// The tree is refused, for this reason.
    Refused(&'static str),
}

fn counts_or_orphan(counts: bool) -> Fate {
    if counts { Fate::Counts } else { Fate::Orphan }
}

fn fate_in_log(name: &[u8]) -> Fate {
    match lsm_log::kind_of(name) {
        LogName::RecordFile(_) => Fate::Counts,
        LogName::Refused => Fate::Refused("is no name that a tree gives"),
        LogName::Other if name == b"current".as_slice() => Fate::Counts,
        LogName::Skipped | LogName::Other => Fate::Foreign,
    }
}

/// What becomes of a name, beside the version of this id and the tables of these ids, which are sorted.
fn fate_of(name: &str, id: Option<VersionId>, ids: &[TableId]) -> Fate {
    match lsm_manifest::kind_of(name.as_bytes()) {
        _ if name == "version" => Fate::Refused("marks a tree of an older format"),
        NameKind::VersionFile => match id {
            Some(id) => counts_or_orphan(name == version_name(id).as_str()),
            None => Fate::Orphan,
        },
        NameKind::TableFile(table) => counts_or_orphan(ids.binary_search(&table).is_ok()),
        NameKind::Skipped => Fate::Foreign,
        NameKind::Refused => Fate::Refused("is no name that a tree gives"),
        NameKind::Other => fate_in_log(name.as_bytes()),
    }
}

fn put_name(alloc: Global, out: &mut Others, name: &str, fate: Fate) -> Result<(), AllocError> {
    match fate {
        Fate::Counts => {}
        Fate::Orphan => out.orphans.push(String::from_str(alloc, name)?)?,
        Fate::Foreign => out.foreign.push(String::from_str(alloc, name)?)?,
        Fate::Refused(why) => {
            put_fault(alloc, &mut out.damage, name, why)?;
        }
    }
    Ok(())
}

/// Sorts names out that this version doesn't name.
pub(crate) fn sort_names(
    alloc: Global,
    names: &[String],
    named: &Named,
) -> Result<Others, AllocError> {
    let mut ids: Vec<TableId> = named.tables.iter().map(|table| table.id).collect(alloc)?;
    ids.sort_unstable();
    let mut out = Others {
        orphans: Vec::new(alloc),
        foreign: Vec::new(alloc),
        damage: Vec::new(alloc),
    };
    for name in names {
        let fate = fate_of(name.as_str(), named.id, &ids);
        put_name(alloc, &mut out, name.as_str(), fate)?;
    }
    out.orphans.sort_unstable();
    out.foreign.sort_unstable();
    Ok(out)
}

/// Whether a file of the root is none of a tree's, and yet opening would remove it with the versions.
fn is_foreign(name: &str) -> bool {
    match name.strip_prefix('v') {
        Some(rest) => name != "version" && parse_number(rest.as_bytes()).is_none(),
        None => false,
    }
}

/// Whether a replacement that was left stands beside none of the files that a tree writes before it.
fn is_lone_replacement(names: &[String]) -> bool {
    let has = |wanted: &str| names.iter().any(|name| name.as_str() == wanted);
    has("replace.new") && !has("current") && !has("v0")
}

fn put_fault(
    alloc: Global,
    out: &mut Vec<Damage>,
    name: &str,
    words: &str,
) -> Result<(), AllocError> {
    out.push(Damage::new(alloc, name, String::from_str(alloc, words)?)?)?;
    Ok(())
}

/// For what a folder with these names isn't taken as a tree's, though a store with them would be opened: docs/FORMATS.md has
/// the rule.
pub(crate) fn folder_faults(alloc: Global, names: &[String]) -> Result<Vec<Damage>, AllocError> {
    let mut out = Vec::new(alloc);
    for name in names {
        if is_foreign(name.as_str()) {
            let words = "begins as the versions of a tree do, which opening removes: move it away";
            put_fault(alloc, &mut out, name.as_str(), words)?;
        }
    }
    if let Some(beside) = missing_current(names) {
        let fault = format!(in alloc; "is missing beside {beside}: put it back from a copy")?;
        out.push(Damage::new(alloc, "current", fault)?)?;
    }
    if is_lone_replacement(names) {
        let words = "isn't a tree's, and opening removes it: move it away";
        put_fault(alloc, &mut out, "replace.new", words)?;
    }
    Ok(out)
}
