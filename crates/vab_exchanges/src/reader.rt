//! Reads the exchanges of a session from a port, in buffers of 4096 bytes.
ghost use Rattle.std.specs.Prelude.{◌≡◌, ◌⊎◌, ◌<◌, ◌≤◌, ◌+◌, ◌++◌, ℕ, List, [], length, take, drop};
ghost use Rattle.std.specs.Prelude.{vec_len, vec_capacity, IfOk, IfErr, IfSome, IfNone};
ghost use Rattle.std.specs.Prelude.{OnOk, OnErr, IsErrOf, IsTrue};
ghost use Rattle.std.specs.Bool.{OnTrue, OnFalse};
ghost use Rattle.vab_disk.specs.Disk.{Faults, SourceFailed};
ghost use Rattle.vab_fbtcp.specs.Frame.{found_of, place_after, body_place, bytes_of};
ghost use Rattle.vab_fbtcp.specs.declared.event.Place.TheVariants.{Hello, Length};

use crate::ReadFault;
use crate::budget::Budget;
use arrayvec::ArrayVec;
use vab_disk::{Disk, Port};
use vab_fbtcp::{Event, Framer};

/// What a session takes from its port, at most `most` bytes.
#[derive(Drop)]
pub struct Reader {
    framer: Framer,
    piece: [u8; 4096],
    budget: Budget,
}

impl Reader {
    ghost use Rattle.vab_fbtcp.specs.Frame.{IsIdle};
    ghost use Rattle.vab_fbtcp.specs.Hello.{is_hello};
    ghost use Rattle.vab_fbtcp.specs.Unread.{unread_of};
    ghost use Rattle.vab_exchanges.specs.Hearing.{Listens};
    ghost use Rattle.vab_exchanges.specs.Reading.{stands_at, rest_of, beyond_of, all_of, room_of};
    ghost use Rattle.vab_exchanges.specs.Reading.{total_of, count_of, most_of, IsFed, Suits};
    ghost use Rattle.vab_exchanges.specs.Reading.{IsNext, FaultAt, StopsBy, EndsAs, cut_of};
    ghost use Rattle.vab_exchanges.specs.Reading.{UnlessSource};
    ghost use Rattle.vab_exchanges.specs.Reading.{IsShort, HasData, IsBroken, IsSpent, IsFewerThan};
    ghost use Rattle.vab_exchanges.specs.Session.{packet as spelling, Stops, HasNoHello};
    ghost use Rattle.vab_exchanges.specs.Session.{IsCutShort, IsAwaited};
    ghost use Rattle.vab_exchanges.specs.Session as session;

    /// At the beginning of a session.
    pub fn new(most: u64) -> Reader
        ensures place { stands_at result ≡ Hello }
        ensures rest { (left : List ℕ) → rest_of result left ≡ take most left }
        ensures beyond { (left : List ℕ) → beyond_of result left ≡ drop most left }
        ensures most { most_of result ≡ most }
        ensures taken { result.budget.taken ≡ 0 }
        ensures fed { IsFed result }
    {
        Reader {
            framer: Framer::new(),
            piece: [0; 4096],
            budget: Budget::new(most),
        }
    }

    // Hears the next piece. `false`: none comes, since the input has ended or the session has had
    // all its bytes.
    fn hear<P: Port>(&mut self, p: &mut P) -> Result<bool, ReadFault>
        requires { IsIdle (stands_at self.old) (unread_of self.old.framer) }
        ensures listens { Listens P.Disk
            (all_of self.old (P.input_left p.old))
            (λ came. came ≡ unread_of self.old.framer)
            p.old p.new }
        ensures place { stands_at self.new ≡ stands_at self.old }
        ensures rest { P.is_modelled → OnOk result
            (rest_of self.new (P.input_left p.new) ≡ rest_of self.old (P.input_left p.old)) }
        ensures beyond { P.is_modelled → OnOk result
            (beyond_of self.new (P.input_left p.new) ≡ beyond_of self.old (P.input_left p.old)) }
        ensures room { OnOk result (room_of self.new ≡ room_of self.old) }
        ensures count { P.is_modelled → OnOk result
            (total_of self.new (P.input_left p.new) ≡ total_of self.old (P.input_left p.old)) }
        ensures some { IfOk result
            (λ some. OnTrue some (self.old.budget.taken < self.new.budget.taken)) }
        ensures fed { IfOk result (λ some. OnTrue some (IsFed self.new)) }
        ensures none { IfOk result (λ some. OnFalse some
            ((unread_of self.new.framer ≡ unread_of self.old.framer)
            × (self.new.budget.taken ≡ self.old.budget.taken))) }
        ensures end { P.is_modelled → IfOk result
            (λ some. OnFalse some (IsSpent self.new (P.input_left p.new))) }
        ensures most { most_of self.new ≡ most_of self.old }
        ensures fault { OnErr result (result ≡ Err ReadFault.Source) }
        ensures steady { UnlessSource (P.faults p.new ≡ P.faults p.old) result }
        ensures cause { OnErr result (SourceFailed (P.faults p.old) (P.faults p.new)) }
    {
        let room = self.budget.room();
        let want = if room < 4096 { room as usize } else { 4096 };
        let count = match p.hear(&mut self.piece[..want]) {
            Ok(count) => count,
            Err(_) => return Err(ReadFault::Source),
        };
        if count == 0 {
            return Ok(false);
        }
        self.framer.feed(&self.piece[..count]);
        self.budget.take(count as u64);
        Ok(true)
    }

    // The next event of the session's bytes, whole or not heard yet, where so many bytes of data
    // are due. `None`: they hold no further one.
    fn next<P: Port>(&mut self, p: &mut P, due: u64) -> Result<Option<Event>, ReadFault>
        requires { IsFed self.old }
        ensures fed { IfOk result (λ next. IfSome next (λ _. IsFed self.new)) }
        ensures listens { Listens P.Disk
            (all_of self.old (P.input_left p.old))
            (IsIdle (stands_at self.old))
            p.old p.new }
        ensures suits { IfOk result (λ next. IfSome next (Suits due (stands_at self.old))) }
        ensures place { IfOk result (λ next. IfSome next
            (λ event. stands_at self.new ≡ place_after (stands_at self.old) (found_of event))) }
        ensures room { IfOk result (λ next. IfSome next
            (λ event. room_of self.new + bytes_of (found_of event) ≡ room_of self.old)) }
        ensures event { P.is_modelled → IfOk result (λ next. IfSome next
            (IsNext (rest_of self.old (P.input_left p.old)) self.new.piece)) }
        ensures rest { P.is_modelled → IfOk result (λ next. IfSome next
            (λ event. rest_of self.new (P.input_left p.new)
            ≡ drop (bytes_of (found_of event)) (rest_of self.old (P.input_left p.old)))) }
        ensures beyond { P.is_modelled → OnOk result
            (beyond_of self.new (P.input_left p.new) ≡ beyond_of self.old (P.input_left p.old)) }
        ensures none { P.is_modelled → IfOk result (λ next. IfNone next
            (IsIdle (stands_at self.old) (rest_of self.old (P.input_left p.old)))) }
        ensures held { P.is_modelled → IfOk result (λ next. IfNone next
            (unread_of self.new.framer ≡ rest_of self.old (P.input_left p.old))) }
        ensures stays { IfOk result
            (λ next. IfNone next (stands_at self.new ≡ stands_at self.old)) }
        ensures end { P.is_modelled → IfOk result
            (λ next. IfNone next (IsSpent self.new (P.input_left p.new))) }
        ensures count { P.is_modelled → OnOk result
            (total_of self.new (P.input_left p.new) ≡ total_of self.old (P.input_left p.old)) }
        ensures most { most_of self.new ≡ most_of self.old }
        ensures fault { P.is_modelled → IfErr result
            (FaultAt due (stands_at self.old) (rest_of self.old (P.input_left p.old))) }
        ensures steady { UnlessSource (P.faults p.new ≡ P.faults p.old) result }
        ensures cause { IsErrOf result ReadFault.Source
            → SourceFailed (P.faults p.old) (P.faults p.new) }
    {
        loop {
            match self.framer.next(due)? {
                Event::NeedMore => {}
                event => return Ok(Some(event)),
            }
            if !self.hear(p)? {
                return Ok(None);
            }
        }
    }

    // Why the session stops where the input ends inside something.
    fn cut(&self) -> ReadFault
        ensures { result ≡ cut_of self.now.budget.taken self.now.budget.most }
    {
        if self.budget.taken == self.budget.most {
            ReadFault::Spent
        } else {
            ReadFault::Cut(self.budget.taken)
        }
    }

    /// Reads the hello. It hears while fewer than four bytes have come, and no more.
    pub fn hello<P: Port>(&mut self, p: &mut P) -> Result<(), ReadFault>
        requires place { stands_at self.old ≡ Hello }
        requires fed { IsFed self.old }
        ensures listens { Listens P.Disk
            (all_of self.old (P.input_left p.old)) (IsFewerThan 4) p.old p.new }
        ensures place { OnOk result (stands_at self.new ≡ Length) }
        ensures fed { OnOk result (IsFed self.new) }
        ensures hello { P.is_modelled → OnOk result
            ((4 ≤ length (rest_of self.old (P.input_left p.old)))
            × IsTrue (is_hello (take 4 (rest_of self.old (P.input_left p.old))))) }
        ensures rest { P.is_modelled → OnOk result
            (rest_of self.new (P.input_left p.new)
            ≡ drop 4 (rest_of self.old (P.input_left p.old))) }
        ensures beyond { P.is_modelled → OnOk result
            (beyond_of self.new (P.input_left p.new) ≡ beyond_of self.old (P.input_left p.old)) }
        ensures count { P.is_modelled → OnOk result
            (total_of self.new (P.input_left p.new) ≡ total_of self.old (P.input_left p.old)) }
        ensures most { most_of self.new ≡ most_of self.old }
        ensures fault { P.is_modelled → IfErr result (StopsBy
            (HasNoHello (count_of self.old (P.input_left p.old))
            (rest_of self.old (P.input_left p.old)))
            (total_of self.old (P.input_left p.old)) (most_of self.old)) }
        ensures steady { UnlessSource (P.faults p.new ≡ P.faults p.old) result }
        ensures cause { IsErrOf result ReadFault.Source
            → SourceFailed (P.faults p.old) (P.faults p.new) }
    {
        match self.next(p, 0) {
            Ok(Some(Event::Hello(_))) => Ok(()),
            Ok(Some(_)) => unreachable!(),
            Ok(None) => Err(self.cut()),
            Err(fault) => Err(fault),
        }
    }

    // Reads so many bytes of a packet.
    fn body<P: Port>(
        &mut self,
        p: &mut P,
        packet: &mut ArrayVec<u8, 4096>,
        count: u64,
    ) -> Result<(), ReadFault>
        requires place { stands_at self.old ≡ body_place count }
        requires fits { count ≤ 4096 }
        requires empty { packet.old.items ≡ [] }
        requires fed { IsFed self.old }
        ensures listens { Listens P.Disk
            (all_of self.old (P.input_left p.old)) (IsFewerThan count) p.old p.new }
        ensures place { OnOk result (stands_at self.new ≡ Length) }
        ensures fed { OnOk result (IsFed self.new) }
        ensures long { OnOk result (length packet.new.items ≡ count) }
        ensures packet { P.is_modelled → OnOk result
            (rest_of self.old (P.input_left p.old)
            ≡ packet.new.items ++ rest_of self.new (P.input_left p.new)) }
        ensures beyond { P.is_modelled → OnOk result
            (beyond_of self.new (P.input_left p.new) ≡ beyond_of self.old (P.input_left p.old)) }
        ensures room { OnOk result (room_of self.new ≤ room_of self.old) }
        ensures count { P.is_modelled → OnOk result
            (total_of self.new (P.input_left p.new) ≡ total_of self.old (P.input_left p.old)) }
        ensures most { most_of self.new ≡ most_of self.old }
        ensures fault { P.is_modelled → IfErr result (StopsBy
            (IsShort (count_of self.old (P.input_left p.old)) count
            (rest_of self.old (P.input_left p.old)))
            (total_of self.old (P.input_left p.old)) (most_of self.old)) }
        ensures steady { UnlessSource (P.faults p.new ≡ P.faults p.old) result }
        ensures cause { IsErrOf result ReadFault.Source
            → SourceFailed (P.faults p.old) (P.faults p.new) }
    {
        let mut left = count;
        while left > 0 {
            match self.next(p, 0) {
                Ok(Some(Event::Piece(range))) => {
                    left -= (range.end - range.start) as u64;
                    let _ = packet.try_extend_from_slice(&self.piece[range.start..range.end]);
                }
                Ok(Some(_)) => unreachable!(),
                Ok(None) => return Err(self.cut()),
                Err(fault) => return Err(fault),
            }
        }
        Ok(())
    }

    /// Reads the next command packet. `false`: the input ends behind the last one. It hears while
    /// no whole packet has come, and no more.
    pub fn packet<P: Port>(
        &mut self,
        p: &mut P,
        packet: &mut ArrayVec<u8, 4096>,
    ) -> Result<bool, ReadFault>
        requires place { stands_at self.old ≡ Length }
        requires fed { IsFed self.old }
        ensures listens { Listens P.Disk
            (all_of self.old (P.input_left p.old)) (IsCutShort 4096) p.old p.new }
        ensures place { OnOk result (stands_at self.new ≡ Length) }
        ensures fed { IfOk result (λ some. OnTrue some (IsFed self.new)) }
        ensures fits { IfOk result (λ some. OnTrue some (length packet.new.items ≤ 4096)) }
        ensures packet { P.is_modelled → IfOk result (λ some. OnTrue some
            (rest_of self.old (P.input_left p.old)
            ≡ spelling packet.new.items ++ rest_of self.new (P.input_left p.new))) }
        ensures beyond { P.is_modelled → OnOk result
            (beyond_of self.new (P.input_left p.new) ≡ beyond_of self.old (P.input_left p.old)) }
        ensures room { IfOk result (λ some. OnTrue some (room_of self.new < room_of self.old)) }
        ensures closed { P.is_modelled → IfOk result (λ some. OnFalse some (EndsAs
            (Stops (count_of self.old (P.input_left p.old)) (rest_of self.old (P.input_left p.old)))
            (total_of self.old (P.input_left p.old)) (most_of self.old) session.Closed)) }
        ensures count { P.is_modelled → OnOk result
            (total_of self.new (P.input_left p.new) ≡ total_of self.old (P.input_left p.old)) }
        ensures most { most_of self.new ≡ most_of self.old }
        ensures fault { P.is_modelled → IfErr result (StopsBy
            (Stops (count_of self.old (P.input_left p.old)) (rest_of self.old (P.input_left p.old)))
            (total_of self.old (P.input_left p.old)) (most_of self.old)) }
        ensures steady { UnlessSource (P.faults p.new ≡ P.faults p.old) result }
        ensures cause { IsErrOf result ReadFault.Source
            → SourceFailed (P.faults p.old) (P.faults p.new) }
    {
        packet.clear();
        match self.next(p, 0) {
            Ok(Some(Event::Head(count))) => match self.body(p, packet, count) {
                Ok(()) => Ok(true),
                Err(fault) => Err(fault),
            },
            Ok(Some(_)) => unreachable!(),
            Ok(None) => {
                if !self.framer.is_between() {
                    return Err(self.cut());
                }
                if self.budget.taken == self.budget.most {
                    return Err(ReadFault::Spent);
                }
                Ok(false)
            }
            Err(fault) => Err(fault),
        }
    }

    // Adds so many bytes of a packet to those that are staged.
    fn part<P: Port>(
        &mut self,
        p: &mut P,
        staged: &mut Vec<u8>,
        count: u64,
    ) -> Result<(), ReadFault>
        requires place { stands_at self.old ≡ body_place count }
        requires room { vec_len staged.old + count ≤ vec_capacity staged.old }
        requires fed { IsFed self.old }
        ensures listens { Listens P.Disk
            (all_of self.old (P.input_left p.old)) (IsFewerThan count) p.old p.new }
        ensures place { OnOk result (stands_at self.new ≡ Length) }
        ensures fed { OnOk result (IsFed self.new) }
        ensures long { OnOk result (vec_len staged.new ≡ vec_len staged.old + count) }
        ensures capacity { vec_capacity staged.old ≤ vec_capacity staged.new }
        ensures bytes { P.is_modelled → OnOk result
            (staged.old.items ++ rest_of self.old (P.input_left p.old)
            ≡ staged.new.items ++ rest_of self.new (P.input_left p.new)) }
        ensures beyond { P.is_modelled → OnOk result
            (beyond_of self.new (P.input_left p.new) ≡ beyond_of self.old (P.input_left p.old)) }
        ensures room { OnOk result (room_of self.new ≤ room_of self.old) }
        ensures count { P.is_modelled → OnOk result
            (total_of self.new (P.input_left p.new) ≡ total_of self.old (P.input_left p.old)) }
        ensures most { most_of self.new ≡ most_of self.old }
        ensures fault { P.is_modelled → IfErr result (StopsBy
            (IsShort (count_of self.old (P.input_left p.old)) count
            (rest_of self.old (P.input_left p.old)))
            (total_of self.old (P.input_left p.old)) (most_of self.old)) }
        ensures steady { UnlessSource (P.faults p.new ≡ P.faults p.old) result }
        ensures cause { IsErrOf result ReadFault.Source
            → SourceFailed (P.faults p.old) (P.faults p.new) }
    {
        let mut left = count;
        while left > 0 {
            match self.next(p, 0) {
                Ok(Some(Event::Piece(range))) => {
                    left -= (range.end - range.start) as u64;
                    let _ = staged.extend_from_slice(&self.piece[range.start..range.end]);
                }
                Ok(Some(_)) => unreachable!(),
                Ok(None) => return Err(self.cut()),
                Err(fault) => return Err(fault),
            }
        }
        Ok(())
    }

    /// Reads the data of a download, of which so many bytes are due, in any number of packets. It
    /// hears while not all have come, and no more. It takes no memory: `staged` has room for them.
    pub fn data<P: Port>(
        &mut self,
        p: &mut P,
        staged: &mut Vec<u8>,
        due: u64,
    ) -> Result<(), ReadFault>
        requires place { stands_at self.old ≡ Length }
        requires fed { IsFed self.old }
        requires empty { staged.old.items ≡ [] }
        requires none { vec_len staged.old ≡ 0 }
        requires room { due ≤ vec_capacity staged.old }
        ensures listens { Listens P.Disk
            (all_of self.old (P.input_left p.old)) (IsAwaited due) p.old p.new }
        ensures place { OnOk result (stands_at self.new ≡ Length) }
        ensures fed { OnOk result (IsFed self.new) }
        ensures data { P.is_modelled → OnOk result (HasData due
            (rest_of self.old (P.input_left p.old))
            (rest_of self.new (P.input_left p.new))
            staged.new.items) }
        ensures beyond { P.is_modelled → OnOk result
            (beyond_of self.new (P.input_left p.new) ≡ beyond_of self.old (P.input_left p.old)) }
        ensures room { OnOk result (room_of self.new ≤ room_of self.old) }
        ensures count { P.is_modelled → OnOk result
            (total_of self.new (P.input_left p.new) ≡ total_of self.old (P.input_left p.old)) }
        ensures most { most_of self.new ≡ most_of self.old }
        ensures fault { P.is_modelled → IfErr result (StopsBy
            (IsBroken (count_of self.old (P.input_left p.old)) due
            (rest_of self.old (P.input_left p.old)))
            (total_of self.old (P.input_left p.old)) (most_of self.old)) }
        ensures steady { UnlessSource (P.faults p.new ≡ P.faults p.old) result }
        ensures cause { IsErrOf result ReadFault.Source
            → SourceFailed (P.faults p.old) (P.faults p.new) }
    {
        let mut left = due;
        while left > 0 {
            match self.next(p, left) {
                Ok(Some(Event::Head(count))) => {
                    if count > left {
                        return Err(ReadFault::Overrun(left, count));
                    }
                    match self.part(p, staged, count) {
                        Ok(()) => {}
                        Err(fault) => return Err(fault),
                    }
                    left -= count;
                }
                Ok(Some(_)) => unreachable!(),
                Ok(None) => return Err(self.cut()),
                Err(fault) => return Err(fault),
            }
        }
        Ok(())
    }
}
