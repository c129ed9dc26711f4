//! The lines of the parts of a disk.

ghost use Rattle.std.specs.Prelude.{◌≡◌, ◌++◌, ◌≤◌, length, OnOk};
ghost use Rattle.vab_look.specs.CheckText as texts;

use crate::fault::put_fault;
use crate::form::{Form, begin, end, put_word};
use crate::line::{Line, push_line};
use crate::place::Place;
use vab_device::StartFault;
use vab_fbproto::put;
use vab_model::NoMemory;
use vab_survey::Finding;

// The part of a fault.
fn place_of(fault: &StartFault) -> Place
    ensures { result ≡ texts.place_of fault.now }
{
    match fault {
        StartFault::TooSmall(_, _) => Place::Size,
        StartFault::BadMark(sector) => {
            if *sector == 2048 {
                Place::Mark
            } else {
                Place::Statuses
            }
        }
        StartFault::BadControl(_) => Place::Control,
        StartFault::BadPhysical => Place::Geometry,
        StartFault::BadGeometry => Place::Geometry,
        StartFault::BadTable(_) => Place::Tables,
        StartFault::BadPartition(_) => Place::Partitions,
        StartFault::BadStore(_) => Place::Stores,
        StartFault::BadState(_) => Place::States,
        StartFault::NoMemory => Place::Size,
        StartFault::Disk(_) => Place::Size,
    }
}

// The number of a part in the order of opening.
fn rank_of(place: Place) -> u8
    ensures { result ≡ texts.rank_of place }
{
    match place {
        Place::Size => 0,
        Place::Mark => 1,
        Place::Statuses => 2,
        Place::Control => 3,
        Place::Geometry => 4,
        Place::Tables => 5,
        Place::Partitions => 6,
        Place::Stores => 7,
        Place::States => 8,
    }
}

fn place_words(place: Place) -> &'static [u8]
    ensures text { result.now ≡ texts.place_words place }
    ensures short { length result.now ≤ 16 }
{
    match place {
        Place::Size => b"size",
        Place::Mark => b"mark",
        Place::Statuses => b"statuses",
        Place::Control => b"control",
        Place::Geometry => b"geometry",
        Place::Tables => b"tables",
        Place::Partitions => b"partitions",
        Place::Stores => b"stores",
        Place::States => b"states",
    }
}

// What is said of a part, where this is found of it by itself.
fn shown(place: Place, first: &Option<StartFault>, own: Finding) -> Finding
    ensures { result ≡ texts.shown place first.now own }
{
    let fault = match first {
        None => return Finding::Fine,
        Some(fault) => fault,
    };
    let rank = rank_of(place);
    let there = rank_of(place_of(fault));
    if rank < there {
        Finding::Fine
    } else if rank == there {
        Finding::Wrong(*fault)
    } else {
        own
    }
}

// What is said of a part, in words.
fn finding_words(finding: &Finding) -> Line
    ensures text { result.items ≡ texts.finding_words finding.now }
    ensures short { length result.items ≤ 100 }
{
    let mut words = Line::new();
    match finding {
        Finding::Fine => put(b"ok", &mut words),
        Finding::Wrong(fault) => put_fault(fault, &mut words),
        Finding::Unread => put(b"not judged", &mut words),
    }
    words
}

// The line of a part.
fn part_line(form: Form, place: Place, first: &Option<StartFault>, own: Finding) -> Line
    ensures { result.items ≡ texts.part_line form place first.now own }
{
    let words = finding_words(&shown(place, first, own));
    let mut line = begin(form, place_words(place));
    put_word(form, b"says", &words, &mut line);
    end(form, &mut line);
    line
}

/// Puts the line of a part behind a page, where this is found of it by itself.
pub(crate) fn push_part(
    form: Form,
    place: Place,
    first: &Option<StartFault>,
    own: Finding,
    page: &mut Vec<u8>,
) -> Result<(), NoMemory>
    ensures { OnOk result
        (page.new.items ≡ page.old.items ++ texts.part_line form place first.now own) }
{
    push_line(&part_line(form, place, first, own), page)
}
