// What a load refuses, and why.
use lsm_tree::{FolderError, FolderFault};
use std::alloc::AllocError;
use std::io;
use thiserror::Error;

/// What is wrong with a line of an export.
#[derive(Clone, Copy, Debug, PartialEq, Eq, Error)]
pub enum LineFault {
    /// It is the first one.
    #[error("an export begins with VERSION=3")]
    NoVersion,
    #[error("a line of the header is NAME=VALUE, and the last one HEADER=END")]
    NoHeader,
    #[error("only format=bytevalue is read: dump it without -p")]
    OtherFormat,
    #[error("only type=btree and type=hash are read")]
    OtherType,
    /// It ends a header.
    #[error("the header has no line format=bytevalue")]
    NoFormat,
    #[error("a key or a value stands behind a space, and DATA=END behind the last one")]
    NoSpace,
    #[error("an odd number of digits")]
    OddDigits,
    #[error("a character that is no digit of hex")]
    NoDigit,
    #[error("more bytes than a key or a value of a tree has")]
    TooLong,
    /// It ends the pairs behind a key.
    #[error("the last key has no value")]
    NoValue,
    #[error("the value of a key that has one already")]
    Twice,
    /// It is the one after the last.
    #[error("the input ends before DATA=END")]
    NoEnd,
    #[error("something behind DATA=END: one database is read")]
    Behind,
}

/// What a load refuses, and why. Only after `Part` there is something in the folder.
#[derive(Debug, Drop, Error)]
pub enum LoadError {
    #[error("line {number}: {fault}")]
    Line {
        /// From 1 on.
        number: u64,
        fault: LineFault,
    },
    #[error("the input can't be read: {0}")]
    Input(io::Error),
    /// The folder of this name has files.
    #[error("{0}: isn't empty, and a load makes a new tree")]
    NotNew(String),
    /// The folder can't be made.
    #[error("{0}")]
    Folder(FolderFault),
    /// The new tree can't be opened.
    #[error("{0}")]
    Tree(FolderError),
    /// The tree has the first pairs alone.
    #[error("{0}; the folder holds a part of the pairs: remove it")]
    Part(FolderError),
    #[error("a growth was refused")]
    Memory(#[from(alloc)] AllocError),
}
