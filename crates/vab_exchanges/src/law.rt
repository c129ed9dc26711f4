//! Laws of sessions.
ghost use Rattle.vab_exchanges.specs.Session.{EachInputIsOne, NoOtherSession};

/// For each input and each choice of where memory is refused there is one session, and no other.
pub fn one_session()
    ensures some { EachInputIsOne }
    ensures only { NoOtherSession }
{}
