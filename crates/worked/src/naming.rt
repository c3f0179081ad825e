// Calls on names, by either edition: a question is put to a payload, through a module, or to two payloads.
use crate::outputs;
use crate::outputs::Wanted;
use crate::pieces::{NUMBERS, byte, first_word, is, other_words, which};
use crate::telling::{say_bytes, told, told_pair, told_verdict, told_yes};
use format::{
    DataIndex, Edition, ElementIndex, FieldIndex, FunctionIndex, GlobalIndex, LabelIndex,
    LocalIndex, MemoryIndex, Question, TableIndex, TagIndex, TypeIndex,
};
use names::judging;
use names::telling::is_canonical;
use names::telling_widely::is_canonical_widely;
use std::io;
use std::io::Stdout;

// The first words of questions, in the order of `question`.
const ASKED: [u8; 75] =
    *b"module function local label type table memory global element data field tag";

const QUESTIONS: usize = 12;

// A question by the place of its first word, and its numbers, of which it may need none.
fn question(place: usize, a: u32, b: u32) -> Question {
    match place {
        0 => Question::ModuleName,
        1 => Question::FunctionName(FunctionIndex(a)),
        2 => Question::LocalName(FunctionIndex(a), LocalIndex(b)),
        3 => Question::LabelName(FunctionIndex(a), LabelIndex(b)),
        4 => Question::TypeName(TypeIndex(a)),
        5 => Question::TableName(TableIndex(a)),
        6 => Question::MemoryName(MemoryIndex(a)),
        7 => Question::GlobalName(GlobalIndex(a)),
        8 => Question::ElementName(ElementIndex(a)),
        9 => Question::DataName(DataIndex(a)),
        10 => Question::FieldName(TypeIndex(a), FieldIndex(b)),
        _ => Question::TagName(TagIndex(a)),
    }
}

// A call without the word that puts it to two payloads.
fn unpaired(call: &[u8]) -> &[u8] {
    if is(first_word(call), b"pair") {
        return other_words(call);
    }
    call
}

// The bytes of a name, as a part of its payload.
fn told_part(stdout: Stdout, p: &[u8], edition: Edition, q: Question) -> io::Result<bool> {
    say_bytes(stdout, b"  bytes", names::ask_bytes(p, edition, q))?;
    Ok(true)
}

// A question to one payload, by the words behind its first.
fn put(stdout: Stdout, words: &[u8], edition: Edition, q: Question, p: &[u8]) -> io::Result<bool> {
    match which(words, b"name name_in name_bytes") {
        0 => told(stdout, names::ask(p, edition, q)),
        1 => told(stdout, through::ask(p, edition, q)),
        2 => told_part(stdout, p, edition, q),
        _ => Ok(false),
    }
}

// The same over two payloads, the separate one first.
fn put_to_both(
    stdout: Stdout,
    words: &[u8],
    edition: Edition,
    q: Question,
    p: &[u8],
    own: &[u8],
) -> io::Result<bool> {
    match which(words, b"name") {
        0 => told_pair(stdout, pairs::ask(p, own, edition, q)),
        _ => Ok(false),
    }
}

// A question to two payloads is one that lost a word.
fn asked(
    stdout: Stdout,
    call: &[u8],
    edition: Edition,
    n: &[u32; NUMBERS],
    p: &[u8],
    own: &[u8],
) -> io::Result<bool> {
    let words = unpaired(call);
    let place = which(first_word(words), &ASKED);
    if QUESTIONS <= place {
        return Ok(false);
    }
    let q = question(place, n[0], n[1]);
    if words.len() == call.len() {
        return put(stdout, other_words(words), edition, q, p);
    }
    put_to_both(stdout, other_words(words), edition, q, p, own)
}

// Whether a payload is canonical.
fn told_canonical(stdout: Stdout, edition: Edition, p: &[u8]) -> io::Result<bool> {
    match edition {
        Edition::First => told_yes(stdout, is_canonical(p)),
        Edition::Wider => told_yes(stdout, is_canonical_widely(p)),
    }
}

pub fn answer(
    stdout: Stdout,
    call: &[u8],
    edition: Edition,
    n: &[u32; NUMBERS],
    p: &[u8],
    own: &[u8],
) -> io::Result<bool> {
    match which(
        call,
        b"names_judge names_is_canonical names_canonical pair_join kept",
    ) {
        0 => told_verdict(stdout, judging::judge(p, edition), p.len()),
        1 => told_canonical(stdout, edition, p),
        2 => outputs::answer(stdout, Wanted::Names, edition, n, p, own),
        3 => outputs::answer(stdout, Wanted::Joined, edition, n, p, own),
        4 => told(
            stdout,
            names::ask(p, edition, Question::KeptContents(byte(n[0]))),
        ),
        _ => asked(stdout, call, edition, n, p, own),
    }
}
