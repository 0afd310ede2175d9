//! Tables of cases, as TOML has them.
use serde::Deserialize;

/// A table of cases.
#[derive(Drop, Deserialize)]
#[serde(deny_unknown_fields)]
pub struct Table {
    /// The calls, in the order in which they are made.
    pub call: Vec<Call>,
}

/// A call of a library, on texts or over a specification.
#[derive(Drop, Deserialize)]
#[serde(deny_unknown_fields)]
pub struct Call {
    /// What the case shows; it is printed with the answer.
    pub shows: String,
    /// The name of the call.
    pub call: String,
    /// The file of the specification, where the call is over one.
    pub spec: Option<String>,
    /// The texts that the call is given.
    #[serde(default)]
    pub texts: Vec<String>,
    /// The numbers that the call is given.
    #[serde(default)]
    pub numbers: Vec<u32>,
    /// The expected answer. The program makes no use of it: `bench/library_cases_stdout.py` makes the stored output from it.
    pub answers: String,
}

impl Call {
    /// The text at a place, and the empty one where there is none.
    pub fn text(&self, place: usize) -> &str {
        match self.texts.get(place) {
            Some(text) => text.as_str(),
            None => "",
        }
    }

    /// The number at a place, and 0 where there is none.
    pub fn number(&self, place: usize) -> u32 {
        self.numbers.get(place).copied().unwrap_or(0)
    }
}
