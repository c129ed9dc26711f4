// The framer: bytes in pieces of any size go in, events come out.
ghost use Rattle.std.specs.Prelude.{◌≡◌, ◌≢◌, ◌<◌, ◌≤◌, ◌+◌, ◌-◌, ◌++◌, ℕ, List, [], length, take};
ghost use Rattle.std.specs.Prelude.{drop, slice_range, IfOk, OnOk, OnErr, IsTrue, ◌↔◌};
ghost use Rattle.std.specs.Prelude.{if◌then◌else◌};
ghost use Rattle.std.specs.Bool.{OnTrue, OnFalse};
ghost use Rattle.std.specs.Int.{w64, from_be_bytes, to_be_bytes};
ghost use Rattle.vab_fbtcp.specs.Hello.{is_hello, version_of};
ghost use Rattle.vab_fbtcp.specs.Frame.{next_of, found_of, place_after, body_place, bytes_of};
ghost use Rattle.vab_fbtcp.specs.Frame.{MapsTo, IsIdle, IsPart, LaterBytesKeepIt, PartsJoin};
ghost use Rattle.vab_fbtcp.specs.declared.event.Place.TheVariants.{Hello, Length, Body};

use crate::{Event, FrameFault, Place};
use arrayvec::ArrayVec;

/// The most bytes of a command packet.
pub const MAX_COMMAND: u64 = 4096;

/// The most bytes of a piece.
pub const MAX_PIECE: usize = 4096;

/// Finds the events of a stream of bytes, however it is cut into pieces.
#[derive(Drop)]
pub struct Framer {
    place: Place,
    held: ArrayVec<u8, 8>,
    piece: ArrayVec<u8, 4096>,
    at: usize,
    ghost within: { at ≤ length piece.items },
    ghost held_in_hello: { place ≡ Hello → length held.items ≤ 4 },
    ghost held_fits: { length held.items ≤ 8 },
    ghost some_left: { (n : ℕ) → place ≡ Body n → 0 < n },
    ghost held_in_body: { (n : ℕ) → place ≡ Body n → held.items ≡ [] },
}

// Takes bytes from the piece until as many are held as are wanted, and says whether they are.
fn gather(held: &mut ArrayVec<u8, 8>, piece: &[u8], at: &mut usize, want: usize) -> bool
    requires few { length held.old.items ≤ want }
    requires room { want ≤ 8 }
    requires within { at.old ≤ length piece.now }
    ensures within { at.new ≤ length piece.now }
    ensures same { held.new.items
        ++ drop at.new piece.now ≡ held.old.items
        ++ drop at.old piece.now }
    ensures full { IsTrue result → length held.new.items ≡ want }
    ensures more { OnFalse result ((length held.new.items < want) × (at.new ≡ length piece.now)) }
{
    let count = (want - held.len()).min(piece.len() - *at);
    let _ = held.try_extend_from_slice(&piece[*at..*at + count]);
    *at += count;
    held.len() == want
}

// Whether no byte is held and none of the piece is left.
fn none_unread(held: &[u8], piece: &[u8], at: usize) -> bool
    requires few { length held.now ≤ 8 }
    requires within { at ≤ length piece.now }
    ensures { IsTrue result ↔ (held.now ++ drop at piece.now ≡ []) }
{
    held.len() + (piece.len() - at) == 0
}

// The version that a hello tells, where it is one.
fn hello_version(hello: &[u8]) -> Option<u8>
    requires { length hello.now ≡ 4 }
    ensures { result ≡ (if is_hello hello.now then Some (version_of hello.now) else None) }
{
    let (tens, ones) = match hello {
        [b'F', b'B', tens, ones] => (*tens, *ones),
        _ => return None,
    };
    if !tens.is_ascii_digit() || !ones.is_ascii_digit() {
        return None;
    }
    let version = 10 * (tens - b'0') + (ones - b'0');
    if version == 0 { None } else { Some(version) }
}

// The number that eight bytes spell, the high byte first.
fn number_of(bytes: &[u8]) -> u64
    requires { length bytes.now ≡ 8 }
    ensures number { result ≡ from_be_bytes w64 bytes.now }
    ensures spelled { to_be_bytes w64 result ≡ bytes.now }
{
    let mut cells = [0u8; 8];
    cells.copy_from_slice(bytes);
    u64::from_be_bytes(cells)
}

// Where a stream stands when so many bytes of a packet are to come.
fn body(left: u64) -> Place
    ensures { result ≡ body_place left }
{
    if left == 0 {
        Place::Length
    } else {
        Place::Body(left)
    }
}

impl Framer {
    ghost use Rattle.vab_fbtcp.specs.Unread.{place_of, unread_of, piece_of};

    /// At the beginning of a stream.
    pub fn new() -> Framer
        ensures place { place_of result ≡ Hello }
        ensures unread { unread_of result ≡ [] }
        ensures piece { piece_of result ≡ [] }
    {
        Framer {
            place: Place::Hello,
            held: ArrayVec::new(),
            piece: ArrayVec::new(),
            at: 0,
        }
    }

    /// Takes the next piece of the stream: 1 to 4096 bytes, once the bytes fed before hold no
    /// further event.
    pub fn feed(&mut self, piece: &[u8])
        requires idle { IsIdle (place_of self.old) (unread_of self.old) }
        requires some { 0 < length piece.now }
        requires fits { length piece.now ≤ 4096 }
        ensures place { place_of self.new ≡ place_of self.old }
        ensures unread { unread_of self.new ≡ unread_of self.old ++ piece.now }
        ensures piece { piece_of self.new ≡ piece.now }
    {
        gather(&mut self.held, self.piece.as_slice(), &mut self.at, 8);
        self.piece.clear();
        let _ = self.piece.try_extend_from_slice(piece);
        self.at = 0;
    }

    /// Whether the stream stands between two packets, with no byte of the next.
    pub fn is_between(&self) -> bool
        ensures { IsTrue result ↔ ((place_of self.now ≡ Length) × (unread_of self.now ≡ [])) }
    {
        match self.place {
            Place::Length => none_unread(self.held.as_slice(), self.piece.as_slice(), self.at),
            _ => false,
        }
    }

    /// The next event. `due` is how many bytes a data phase still wants, 0 outside one.
    ///
    /// `BadHello` comes exactly where the four bytes of the hello are there and aren't one.
    /// `TooLong` comes exactly
    /// where a length above 4096 is there and `due` is 0. After a fault the framer gives the same
    /// fault again.
    pub fn next(&mut self, due: u64) -> Result<Event, FrameFault>
        ensures event { MapsTo found_of result
            (next_of due (place_of self.old) (unread_of self.old)) }
        ensures place { IfOk result
            (λ event. place_of self.new ≡ place_after (place_of self.old) (found_of event)) }
        ensures unread { IfOk result
            (λ event. unread_of self.new ≡ drop (bytes_of (found_of event)) (unread_of self.old)) }
        ensures part { IfOk result
            (λ event. IsPart event (piece_of self.old) (unread_of self.old)) }
        ensures err { OnErr result
            ((place_of self.new ≡ place_of self.old) × (unread_of self.new ≡ unread_of self.old)) }
        ensures piece { piece_of self.new ≡ piece_of self.old }
        // After `NeedMore` the next piece may come.
        ensures idle { IfOk result
            (λ event. event ≡ Event.NeedMore → IsIdle (place_of self.new) (unread_of self.new)) }
    {
        match self.place {
            Place::Hello => self.next_hello(),
            Place::Length => self.next_length(due),
            Place::Body(left) => Ok(self.next_part(left)),
        }
    }

    // The hello.
    fn next_hello(&mut self) -> Result<Event, FrameFault>
        requires { place_of self.old ≡ Hello }
        ensures event { MapsTo found_of result (next_of 0 Hello (unread_of self.old)) }
        ensures place { IfOk result
            (λ event. place_of self.new ≡ place_after Hello (found_of event)) }
        ensures unread { IfOk result
            (λ event. unread_of self.new ≡ drop (bytes_of (found_of event)) (unread_of self.old)) }
        ensures part { IfOk result
            (λ event. IsPart event (piece_of self.old) (unread_of self.old)) }
        ensures err { OnErr result
            ((place_of self.new ≡ place_of self.old) × (unread_of self.new ≡ unread_of self.old)) }
        ensures piece { piece_of self.new ≡ piece_of self.old }
        ensures idle { IfOk result
            (λ event. event ≡ Event.NeedMore → IsIdle (place_of self.new) (unread_of self.new)) }
    {
        if !gather(&mut self.held, self.piece.as_slice(), &mut self.at, 4) {
            return Ok(Event::NeedMore);
        }
        match hello_version(self.held.as_slice()) {
            Some(version) => {
                self.held.clear();
                self.place = Place::Length;
                Ok(Event::Hello(version))
            }
            None => Err(FrameFault::BadHello),
        }
    }

    // The length of a packet.
    fn next_length(&mut self, due: u64) -> Result<Event, FrameFault>
        requires { place_of self.old ≡ Length }
        ensures event { MapsTo found_of result (next_of due Length (unread_of self.old)) }
        ensures place { IfOk result
            (λ event. place_of self.new ≡ place_after Length (found_of event)) }
        ensures unread { IfOk result
            (λ event. unread_of self.new ≡ drop (bytes_of (found_of event)) (unread_of self.old)) }
        ensures part { IfOk result
            (λ event. IsPart event (piece_of self.old) (unread_of self.old)) }
        ensures err { OnErr result
            ((place_of self.new ≡ place_of self.old) × (unread_of self.new ≡ unread_of self.old)) }
        ensures piece { piece_of self.new ≡ piece_of self.old }
        ensures idle { IfOk result
            (λ event. event ≡ Event.NeedMore → IsIdle (place_of self.new) (unread_of self.new)) }
    {
        if !gather(&mut self.held, self.piece.as_slice(), &mut self.at, 8) {
            return Ok(Event::NeedMore);
        }
        let length = number_of(self.held.as_slice());
        if due == 0 && length > MAX_COMMAND {
            return Err(FrameFault::TooLong(length));
        }
        self.held.clear();
        self.place = body(length);
        Ok(Event::Head(length))
    }

    // Bytes of a packet, of which so many are to come.
    fn next_part(&mut self, left: u64) -> Event
        requires { place_of self.old ≡ Body left }
        ensures event { Ok (found_of result) ≡ next_of 0 (Body left) (unread_of self.old) }
        ensures place { place_of self.new ≡ place_after (Body left) (found_of result) }
        ensures unread { unread_of self.new
            ≡ drop (bytes_of (found_of result)) (unread_of self.old) }
        ensures part { IsPart result (piece_of self.old) (unread_of self.old) }
        ensures piece { piece_of self.new ≡ piece_of self.old }
        ensures idle { result ≡ Event.NeedMore → IsIdle (place_of self.new) (unread_of self.new) }
    {
        let start = self.at;
        let there = self.piece.len() - start;
        if there == 0 {
            return Event::NeedMore;
        }
        let count = if left < there as u64 {
            left as usize
        } else {
            there
        };
        self.at += count;
        self.place = body(left - count as u64);
        Event::Piece(start..start + count)
    }
}

/// What the events of a stream are doesn't depend on how it is cut.
pub fn laws_of_cutting()
    ensures kept { LaterBytesKeepIt }
    ensures joined { PartsJoin }
{}
