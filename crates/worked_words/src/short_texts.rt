//! Words and feeds out of short texts and rows.
use net_core::{Name, Names};
use net_words::{BasisText, FeedText, Role, Source, WordText};
use std::alloc::{AllocError, Global};
use std::process::Abort;
use text_core::{plain_text, tokens};

/// The words of a text with a `;` between words: the name of each, whose first letter says its role, and its nets.
pub(crate) fn words_of(rt: &impl Abort, alloc: Global, text: &str) -> Vec<WordText> {
    words_in(alloc, text.as_bytes()).ok().expect(rt, "words")
}

fn words_in(alloc: Global, text: &[u8]) -> Result<Vec<WordText>, AllocError> {
    let mut words = Vec::new(alloc);
    for part in text.split(|&byte| byte == b';') {
        add_word(alloc, part, &mut words)?;
    }
    Ok(words)
}

fn add_word(alloc: Global, part: &[u8], words: &mut Vec<WordText>) -> Result<(), AllocError> {
    let tokens = tokens(alloc, part)?;
    if let [name, nets @ ..] = tokens.as_slice() {
        words.push(word_of(alloc, name, nets)?)?;
    }
    Ok(())
}

fn word_of(alloc: Global, name: &[u8], nets: &[&[u8]]) -> Result<WordText, AllocError> {
    Ok(WordText {
        line: 3,
        name: name_of(alloc, name)?,
        role: role_of(name),
        basis: BasisText::Poly,
        nets: names(alloc, nets)?,
    })
}

fn role_of(name: &[u8]) -> Role {
    match name {
        [b'I', ..] => Role::Input,
        [b'S', ..] => Role::State,
        [b'F', ..] => Role::Fed,
        _ => Role::Output,
    }
}

fn names(alloc: Global, tokens: &[&[u8]]) -> Result<Names, AllocError> {
    let mut list = Vec::new(alloc);
    for token in tokens {
        list.push(name_of(alloc, token)?)?;
    }
    Ok(Names::new(list))
}

fn name_of(alloc: Global, token: &[u8]) -> Result<Name, AllocError> {
    Name::new(alloc, plain_text(token).unwrap_or(""))
}

/// The feeds of these lines, nets, cycles and sources.
pub(crate) fn feeds_of(
    rt: &impl Abort,
    alloc: Global,
    rows: &[(u32, &str, u32, Source)],
) -> Vec<FeedText> {
    feeds_in(alloc, rows).ok().expect(rt, "feeds")
}

fn feeds_in(alloc: Global, rows: &[(u32, &str, u32, Source)]) -> Result<Vec<FeedText>, AllocError> {
    let mut feeds = Vec::new(alloc);
    for &(line, net, cycle, source) in rows {
        feeds.push(FeedText {
            line,
            net: Name::new(alloc, net)?,
            cycle,
            source,
        })?;
    }
    Ok(feeds)
}
