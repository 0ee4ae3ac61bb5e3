//! The form of the rows, line by line:
//!
//!     text NAME           a text that rows can name; its lines follow, each behind `|`
//!     row NAME            a row: its files, and then its calls
//!     file F TEXT         the file F holds the text
//!     change F N          line N of the file F is what follows
//!     words W W ..        a call
//!     keep F              what the call answers is the file F of the calls after it
//!     status N            its status; its lines follow, each behind `|`
//!     ends N LENGTH       its status, and how many bytes it prints; its last lines follow, each behind `|`
//!     cuts N N ..         the same call, once for each byte of each file, with the file cut before it: how many answers are
//!                         the same, how many others have the status 0, 1, .. 5, and how many not the form of an answer
//!
//! and what fails outside in the calls after it, up to the next line of the kind or the next row:
//!
//!     reads N N ..        the numbers of the reads that fail
//!     writes N N ..       the numbers of the writes that fail
//!     room N              how many bytes the output takes
//!
//! Of each call the reads and the writes are counted from 1. Where no such line holds, none of them fails, and the output
//! takes 4,000,000 bytes.
//!
//! The name of a row has no space in it. A line behind `|` ends with a line feed, one behind `:` does not; the line of a
//! change is behind `:`, and where several lines take its place, those before the last are behind `|`.
use crate::call::answer;
use crate::cuts::cut_answers;
use crate::escapes::plain;
use crate::files::{Files, changed};
use crate::outside::Outside;
use std::alloc::{AllocError, Global};
use std::mem;

// What the lines behind `|` belong to.
#[derive(Drop)]
enum Target {
    Nothing,
    Text(String),
    Change(String, u32),
    Answer(Option<u32>),
    Cuts(String),
}

/// The rows that were read so far, and what the next lines belong to.
#[derive(Drop)]
pub struct Reader {
    texts: Files,
    files: Files,
    outside: Outside,
    row: String,
    target: Target,
    lines: Vec<u8>,
    words: Vec<String>,
    keep: Option<String>,
    status: u8,
    last: (u8, Vec<u8>),
    rows: u32,
    calls: u32,
    differ: u32,
}

impl Reader {
    /// No rows yet.
    pub fn new(alloc: Global) -> Reader {
        Reader {
            texts: Files::new(alloc),
            files: Files::new(alloc),
            outside: Outside::new(alloc),
            row: String::new(alloc),
            target: Target::Nothing,
            lines: Vec::new(alloc),
            words: Vec::new(alloc),
            keep: None,
            status: 0,
            last: (0, Vec::new(alloc)),
            rows: 0,
            calls: 0,
            differ: 0,
        }
    }

    /// How many rows there are, how many calls, and how many calls differ.
    pub fn counts(&self) -> (u32, u32, u32) {
        (self.rows, self.calls, self.differ)
    }

    /// Takes the next line.
    pub fn take(&mut self, rt: &impl Print, alloc: Global, line: &[u8]) -> anyhow::Result<()> {
        match line {
            [b'|', rest @ ..] => Ok(self.add(alloc, rest, b"\n")?),
            [b':', rest @ ..] => Ok(self.add(alloc, rest, b"")?),
            _ => {
                self.settle(rt, alloc)?;
                Ok(self.say(alloc, line)?)
            }
        }
    }

    // A line of a text, of a change or of an answer.
    fn add(&mut self, alloc: Global, rest: &[u8], end: &[u8]) -> Result<(), AllocError> {
        self.lines.extend_from_slice(&plain(alloc, rest)?)?;
        self.lines.extend_from_slice(end)
    }

    /// Settles what the lines before belong to: a text, a change of a file, or a call, which is made now.
    pub fn settle(&mut self, rt: &impl Print, alloc: Global) -> anyhow::Result<()> {
        let lines = mem::replace(&mut self.lines, Vec::new(alloc));
        match mem::replace(&mut self.target, Target::Nothing) {
            Target::Nothing => {}
            Target::Text(name) => self.texts.put(name, lines)?,
            Target::Change(name, place) => {
                let text = changed(alloc, self.files.get(&name), place, &lines)?;
                self.files.put(name, text)?;
            }
            Target::Answer(length) => self.call(rt, alloc, &lines, length)?,
            Target::Cuts(wanted) => self.cut(rt, alloc, &wanted)?,
        }
        Ok(())
    }

    // Makes a call, and tells where it answers otherwise.
    fn call(
        &mut self,
        rt: &impl Print,
        alloc: Global,
        wanted: &[u8],
        length: Option<u32>,
    ) -> anyhow::Result<()> {
        let (status, text) = answer(alloc, &self.words, &self.files, &self.outside)?;
        self.calls = self.calls.wrapping_add(1);
        if status != self.status || !is_wanted(&text, wanted, length) {
            self.differ = self.differ.wrapping_add(1);
            let told = String::from_utf8_lossy(alloc, &text)?;
            println!(rt; "DIFFERS {}: status {status}, {told}", self.row)?;
        }
        self.last = (status, text.to_vec(alloc)?);
        if let Some(name) = self.keep.take() {
            self.files.put(name, text)?;
        }
        Ok(())
    }

    // Makes the last call with each file cut at each byte, and tells where the answers are others.
    fn cut(&mut self, rt: &impl Print, alloc: Global, wanted: &String) -> anyhow::Result<()> {
        let tally = cut_answers(alloc, &self.words, &self.files, &self.outside, &self.last)?;
        let told = tally.line(alloc)?;
        self.calls = self.calls.wrapping_add(1);
        if told != *wanted {
            self.differ = self.differ.wrapping_add(1);
            println!(rt; "DIFFERS {}: {told}", self.row)?;
        }
        Ok(())
    }

    // A line that says what comes.
    fn say(&mut self, alloc: Global, line: &[u8]) -> Result<(), AllocError> {
        let mut parts = Vec::new(alloc);
        for part in line.split(|byte| *byte == b' ') {
            parts.push(String::from_utf8_lossy(alloc, &plain(alloc, part)?)?)?;
        }
        match parts.as_slice() {
            [word, name] if word.as_str() == "text" => self.target = Target::Text(name.clone()?),
            [word, name] if word.as_str() == "row" => self.begin_row(alloc, name)?,
            [word, file, text] if word.as_str() == "file" => {
                let bytes = self.texts.get(text).to_vec(alloc)?;
                self.files.put(file.clone()?, bytes)?;
            }
            [word, file, number] if word.as_str() == "change" => {
                self.target = Target::Change(file.clone()?, number.parse().unwrap_or(0));
            }
            [word, words @ ..] if word.as_str() == "words" => self.words = words.to_vec(alloc)?,
            [word, file] if word.as_str() == "keep" => self.keep = Some(file.clone()?),
            [word, status] if word.as_str() == "status" => {
                self.status = status.parse().unwrap_or(255);
                self.target = Target::Answer(None);
            }
            [word, status, length] if word.as_str() == "ends" => {
                self.status = status.parse().unwrap_or(255);
                self.target = Target::Answer(Some(length.parse().unwrap_or(0)));
            }
            [word, ..] if word.as_str() == "cuts" => {
                self.target = Target::Cuts(String::from_utf8_lossy(alloc, line)?);
            }
            parts => self.outside.take(alloc, parts)?,
        }
        Ok(())
    }

    // A row begins, with no files, and nothing that fails.
    fn begin_row(&mut self, alloc: Global, name: &String) -> Result<(), AllocError> {
        self.files.clear();
        self.outside = Outside::new(alloc);
        self.row = name.clone()?;
        self.rows = self.rows.wrapping_add(1);
        Ok(())
    }
}

// Whether what is printed is the wanted text, or has this length and ends with it.
fn is_wanted(text: &[u8], wanted: &[u8], length: Option<u32>) -> bool {
    match length {
        None => text == wanted,
        Some(length) => text.len() as u64 == u64::from(length) && text.ends_with(wanted),
    }
}
