// The words of the command line.
use vab_look::Form;

/// A page.
#[derive(Clone, Copy, Debug, PartialEq, Eq)]
pub enum Page {
    Status,
    Tables,
    Stores,
    Check,
}

/// What is asked for.
#[derive(Clone, Copy, Debug, PartialEq, Eq)]
pub enum Request<'a> {
    /// A page in a form.
    Page(Page, Form),
    /// The images of a slot, or where none is named of the current one, into this folder.
    Extract(&'a str, Option<usize>),
}

// What stands in front of a page or behind it for the form of JSON.
const JSON: &str = "--json";

// The page of a word.
fn page_of(word: &str) -> Option<Page> {
    match word {
        "status" => Some(Page::Status),
        "tables" => Some(Page::Tables),
        "stores" => Some(Page::Stores),
        "check" => Some(Page::Check),
        _ => None,
    }
}

// The slot of a word.
fn slot_of(word: &str) -> Option<usize> {
    match word {
        "a" => Some(0),
        "b" => Some(1),
        _ => None,
    }
}

// The images of a slot into a folder.
fn extract_of<'a>(words: &'a [String]) -> Option<Request<'a>> {
    match words {
        [folder] => Some(Request::Extract(folder.as_str(), None)),
        [folder, option, slot] if option.as_str() == "--slot" => {
            let slot = slot_of(slot.as_str())?;
            Some(Request::Extract(folder.as_str(), Some(slot)))
        }
        [option, slot, folder] if option.as_str() == "--slot" => {
            let slot = slot_of(slot.as_str())?;
            Some(Request::Extract(folder.as_str(), Some(slot)))
        }
        _ => None,
    }
}

// A page in a form.
fn request_in<'a>(page: &str, form: Form) -> Option<Request<'a>> {
    match page_of(page) {
        Some(page) => Some(Request::Page(page, form)),
        None => None,
    }
}

/// What the words behind the device ask for; `None` where they aren't taken.
pub fn request_of<'a>(words: &'a [String]) -> Option<Request<'a>> {
    match words {
        [] => Some(Request::Page(Page::Status, Form::Text)),
        [first, rest @ ..] if first.as_str() == "extract" => extract_of(rest),
        [json] if json.as_str() == JSON => Some(Request::Page(Page::Status, Form::Json)),
        [page] => request_in(page.as_str(), Form::Text),
        [json, page] if json.as_str() == JSON => request_in(page.as_str(), Form::Json),
        [page, json] if json.as_str() == JSON => request_in(page.as_str(), Form::Json),
        _ => None,
    }
}
