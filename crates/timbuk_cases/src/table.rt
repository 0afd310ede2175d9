//! Tables of cases, as TOML has them.
use serde::Deserialize;
use std::collections::BTreeMap;

/// A table of cases.
#[derive(Drop, Deserialize)]
#[serde(deny_unknown_fields)]
pub struct Table {
    /// The cases, in the order in which they are run.
    pub case: Vec<Case>,
}

/// One run of the program, and what is expected of it.
#[derive(Drop, Deserialize)]
#[serde(deny_unknown_fields)]
pub struct Case {
    /// What the case shows; it is printed with the answer.
    pub shows: String,
    /// The words of the command line: `complete F` where they are left out.
    pub words: Option<Vec<String>>,
    /// Files of the folder of the tables that lie on the shelf, under their own names.
    #[serde(default)]
    pub copies: Vec<String>,
    /// The other files on the shelf, by name.
    #[serde(default)]
    pub files: BTreeMap<String, File>,
    /// How the shelf behaves.
    pub shelf: Option<Device>,
    /// How the output behaves.
    pub sink: Option<Device>,
    /// The name of the expected status. The program makes no use of it: `bench/cases_stdout.py` makes the stored output from it.
    pub status: String,
    /// The expected text, of which the same is true.
    pub writes: String,
    /// The files of which it is printed how many bytes are left, each with the expected number.
    #[serde(default)]
    pub leaves: BTreeMap<String, u64>,
}

/// The bytes of a file.
#[derive(Drop, Deserialize)]
#[serde(untagged)]
pub enum File {
    /// A text.
    Text(String),
    /// What its parts have, one after the other.
    Parts(Vec<Part>),
}

/// A part of a file.
#[derive(Drop, Deserialize)]
#[serde(untagged, deny_unknown_fields)]
pub enum Part {
    /// A text, so many times, or once. At each time `{}` in it stands for how many times came before.
    Text {
        /// The text.
        text: String,
        /// How many times it stands there.
        times: Option<u32>,
    },
    /// All of a file of the folder of the tables.
    Copy {
        /// Its name.
        copy: String,
    },
    /// These bytes.
    Bytes {
        /// The bytes.
        bytes: Vec<u8>,
    },
}

/// How a device in memory behaves.
#[derive(Drop, Deserialize)]
#[serde(deny_unknown_fields)]
pub struct Device {
    /// The most bytes that one call moves.
    pub piece: Option<usize>,
    /// How many bytes there is room for; the shelf needs none.
    pub room: Option<usize>,
    /// The calls that fail, counted from 1.
    #[serde(default)]
    pub fails: Vec<u64>,
}
