//! Files and texts by name.
use std::alloc::{AllocError, Global};

/// Names with their bytes, each name once.
#[derive(Drop)]
pub struct Files {
    pairs: Vec<(String, Vec<u8>)>,
}

impl Files {
    /// No files.
    pub fn new(alloc: Global) -> Files {
        Files {
            pairs: Vec::new(alloc),
        }
    }

    /// Forgets all files.
    pub fn clear(&mut self) {
        self.pairs.clear();
    }

    /// Puts a file in place of one with its name, or beside the others.
    pub fn put(&mut self, name: String, bytes: Vec<u8>) -> Result<(), AllocError> {
        self.pairs.retain(|pair| pair.0 != name);
        self.pairs.push((name, bytes))?;
        Ok(())
    }

    /// The bytes of a file, none where there is no such file.
    pub fn get(&self, name: &str) -> &[u8] {
        for pair in &self.pairs {
            if pair.0.as_str() == name {
                return &pair.1;
            }
        }
        &[]
    }

    /// How many files there are.
    pub fn count(&self) -> usize {
        self.pairs.len()
    }

    /// How many bytes the file at a place has.
    pub fn size(&self, place: usize) -> usize {
        match self.pairs.get(place) {
            Some(pair) => pair.1.len(),
            None => 0,
        }
    }

    /// All files, the one at a place cut to this length.
    pub fn cut(&self, alloc: Global, place: usize, length: usize) -> Result<Files, AllocError> {
        let mut pairs = Vec::new(alloc);
        for (at, (name, bytes)) in self.pairs.iter().enumerate() {
            let whole = bytes.as_slice();
            let left = if at == place {
                whole.get(..length).unwrap_or(whole)
            } else {
                whole
            };
            pairs.push((name.clone()?, left.to_vec(alloc)?))?;
        }
        Ok(Files { pairs })
    }

    /// All files.
    pub fn copied(&self, alloc: Global) -> Result<Vec<(String, Vec<u8>)>, AllocError> {
        let mut pairs = Vec::new(alloc);
        for (name, bytes) in &self.pairs {
            pairs.push((name.clone()?, bytes.to_vec(alloc)?))?;
        }
        Ok(pairs)
    }
}

/// A text in which the line with this number, from 1, is changed; each line ends with a line feed.
pub fn changed(alloc: Global, text: &[u8], place: u32, to: &[u8]) -> Result<Vec<u8>, AllocError> {
    let mut bytes = Vec::new(alloc);
    let mut number: u32 = 0;
    for line in text
        .strip_suffix(b"\n")
        .unwrap_or(text)
        .split(|byte| *byte == b'\n')
    {
        number = number.wrapping_add(1);
        bytes.extend_from_slice(if number == place { to } else { line })?;
        bytes.push(b'\n')?;
    }
    Ok(bytes)
}
