//! The two spellings of a line: words, or an object of JSON.

ghost use Rattle.std.specs.Prelude.{◌≡◌, ◌++◌, ◌≤◌, ◌+◌, length};
ghost use Rattle.vab_look.specs.Form as texts;

use crate::line::Line;
use vab_fbproto::{put, put_decimal};

/// How a page is spelled.
#[derive(Clone, Copy, Debug, PartialEq, Eq)]
pub enum Form {
    /// A line of words for each fact.
    Text,
    /// A line with an object of JSON for each fact.
    Json,
}

/// The begin of the line of a fact of this kind: at most 26 bytes.
pub(crate) fn begin(form: Form, kind: &[u8]) -> Line
    requires { length kind.now ≤ 16 }
    ensures text { result.items ≡ texts.begun form kind.now }
    ensures short { length result.items ≤ 26 }
{
    let mut line = Line::new();
    match form {
        Form::Text => put(kind, &mut line),
        Form::Json => {
            put(b"{\"kind\":\"", &mut line);
            put(kind, &mut line);
            put(b"\"", &mut line)
        }
    }
    line
}

// Puts a key of JSON: at most 14 bytes.
fn put_key(key: &[u8], out: &mut Line)
    requires key { length key.now ≤ 10 }
    requires room { length out.old.items + 14 ≤ 256 }
    ensures text { out.new.items ≡ out.old.items ++ texts.json_key key.now }
    ensures short { length out.new.items ≤ length out.old.items + 14 }
{
    put(b",\"", out);
    put(key, out);
    put(b"\":", out)
}

// Puts a text of JSON.
fn put_quoted(word: &[u8], out: &mut Line)
    requires room { length out.old.items + length word.now + 2 ≤ 256 }
    ensures text { out.new.items ≡ out.old.items ++ texts.quoted word.now }
    ensures short { length out.new.items ≤ length out.old.items + length word.now + 2 }
{
    put(b"\"", out);
    put(word, out);
    put(b"\"", out)
}

/// Puts a word that has no key in a line of words: at most 16 bytes more than it has.
pub(crate) fn put_word(form: Form, key: &[u8], word: &[u8], out: &mut Line)
    requires key { length key.now ≤ 10 }
    requires room { length out.old.items + length word.now + 16 ≤ 256 }
    ensures text { out.new.items ≡ out.old.items ++ texts.word_in form key.now word.now }
    ensures short { length out.new.items ≤ length out.old.items + length word.now + 16 }
{
    match form {
        Form::Text => {
            put(b" ", out);
            put(word, out)
        }
        Form::Json => {
            put_key(key, out);
            put_quoted(word, out)
        }
    }
}

/// Puts a word and its key: at most 16 bytes more than the word has.
pub(crate) fn put_keyed(form: Form, key: &[u8], word: &[u8], out: &mut Line)
    requires key { length key.now ≤ 10 }
    requires room { length out.old.items + length word.now + 16 ≤ 256 }
    ensures text { out.new.items ≡ out.old.items ++ texts.keyed_in form key.now word.now }
    ensures short { length out.new.items ≤ length out.old.items + length word.now + 16 }
{
    match form {
        Form::Text => {
            put(b" ", out);
            put(key, out);
            put(b" ", out);
            put(word, out)
        }
        Form::Json => {
            put_key(key, out);
            put_quoted(word, out)
        }
    }
}

/// Puts a number that has no key in a line of words: at most 34 bytes.
pub(crate) fn put_number(form: Form, key: &[u8], n: u64, out: &mut Line)
    requires key { length key.now ≤ 10 }
    requires room { length out.old.items + 34 ≤ 256 }
    ensures text { out.new.items ≡ out.old.items ++ texts.number_in form key.now n }
    ensures short { length out.new.items ≤ length out.old.items + 34 }
{
    match form {
        Form::Text => put(b" ", out),
        Form::Json => put_key(key, out),
    }
    put_decimal(n, out)
}

/// Puts a number and its key: at most 34 bytes.
pub(crate) fn put_counted(form: Form, key: &[u8], n: u64, out: &mut Line)
    requires key { length key.now ≤ 10 }
    requires room { length out.old.items + 34 ≤ 256 }
    ensures text { out.new.items ≡ out.old.items ++ texts.counted_in form key.now n }
    ensures short { length out.new.items ≤ length out.old.items + 34 }
{
    match form {
        Form::Text => {
            put(b" ", out);
            put(key, out);
            put(b" ", out)
        }
        Form::Json => put_key(key, out),
    }
    put_decimal(n, out)
}

/// Puts the end of a line.
pub(crate) fn end(form: Form, out: &mut Line)
    requires room { length out.old.items + 2 ≤ 256 }
    ensures text { out.new.items ≡ out.old.items ++ texts.ended form }
{
    match form {
        Form::Text => put(b"\n", out),
        Form::Json => put(b"}\n", out),
    }
}
