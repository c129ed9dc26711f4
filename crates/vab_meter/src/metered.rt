// A port, and what goes by.
ghost use Rattle.std.specs.Prelude.{◌≡◌};

use crate::line::Line;
use std::io::Write;
use vab_disk::{Disk, Failed, Port, PortFault};

/// A port beside which is counted what is read, written, heard and told over it. Its contents, what
/// it tells and hears, its faults and its crash images are those of the port.
#[derive(Drop)]
pub struct Metered<P: Port + Drop, W: Write + Drop> {
    port: P,
    line: Line<W>,
}

impl<P: Port + Drop, W: Write + Drop> Metered<P, W> {
    /// A port with a line on this output, which is drawn where it is to be shown.
    pub fn new(port: P, out: W, is_shown: bool) -> Metered<P, W>
        ensures { result.port ≡ port }
    {
        Metered {
            port,
            line: Line::new(out, is_shown),
        }
    }

    /// The port, once the line is wiped.
    pub fn into_port(self) -> P
        ensures { result ≡ self.port }
    {
        let Metered { port, mut line } = self;
        line.wipe();
        port
    }
}

impl<P: Port + Drop, W: Write + Drop> Disk for Metered<P, W> {
    ghost is_modelled = { P.is_modelled };

    ghost size = { λ m. P.size m.port };

    ghost seen = { λ m. P.seen m.port };

    ghost may_leave = { λ m. P.may_leave m.port };

    ghost told = { λ m. P.told m.port };

    ghost input_left = { λ m. P.input_left m.port };

    ghost heard = { λ m. P.heard m.port };

    ghost faults = { λ m. P.faults m.port };

    ghost moment = { λ m. P.moment m.port };

    ghost outcomes = { λ m. P.outcomes m.port };

    ghost small = { λ m. P.small m.port };

    ghost whole = { λ m. P.whole m.port };

    ghost seen_held = { λ m. P.seen_held m.port };

    ghost bytes = { λ m. P.bytes m.port };

    ghost counts_now = { λ m. P.counts_now m.port };

    ghost only_now = { λ m. P.only_now m.port };

    fn sectors(&self) -> u64 {
        self.port.sectors()
    }

    fn read_sector(&mut self, at: u64, out: &mut [u8; 512]) -> Result<(), Failed> {
        self.line.count_read();
        self.port.read_sector(at, out)
    }

    fn write_sector(&mut self, at: u64, from: &[u8; 512]) -> Result<(), Failed> {
        self.line.count_written();
        self.port.write_sector(at, from)
    }

    fn sync(&mut self) -> Result<(), Failed> {
        self.port.sync()
    }
}

impl<P: Port + Drop, W: Write + Drop> Port for Metered<P, W> {
    fn hear(&mut self, out: &mut [u8]) -> Result<usize, PortFault> {
        self.line.count_heard(out.len() as u64);
        self.port.hear(out)
    }

    fn say(&mut self, from: &[u8]) -> Result<usize, PortFault> {
        self.line.count_told(from.len() as u64);
        self.port.say(from)
    }
}
