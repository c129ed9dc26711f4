// The line that shows how far the work is.

use std::io::Write;

// So many pieces of 512 bytes go by between two drawings: 8 MiB.
const STEP: u64 = 16384;

/// What went by, and where it is shown.
#[derive(Drop)]
pub(crate) struct Line<W: Write + Drop> {
    out: W,
    is_shown: bool,
    is_drawn: bool,
    read: u64,
    written: u64,
    heard: u64,
    told: u64,
    since: u64,
}

// Bytes in whole MiB.
fn mib(bytes: u64) -> u64 {
    bytes >> 20
}

impl<W: Write + Drop> Line<W> {
    /// Nothing went by. The line is drawn only where it is to be shown.
    pub(crate) fn new(out: W, is_shown: bool) -> Line<W> {
        Line {
            out,
            is_shown,
            is_drawn: false,
            read: 0,
            written: 0,
            heard: 0,
            told: 0,
            since: 0,
        }
    }

    // Draws the line in the place of the one before. That it can't be drawn changes nothing.
    fn draw(&mut self) {
        self.is_drawn = true;
        let _ = write!(
            self.out,
            "\rread {} MiB, written {} MiB, heard {} MiB, told {} MiB\u{1b}[K\r",
            mib(self.read),
            mib(self.written),
            mib(self.heard),
            mib(self.told)
        );
    }

    // So many bytes went by: a piece for each 512 of them, and one at least.
    fn pass(&mut self, bytes: u64) {
        let pieces = if bytes < 512 { 1 } else { bytes >> 9 };
        self.since = self.since.saturating_add(pieces);
        if self.is_shown && self.since >= STEP {
            self.since = 0;
            self.draw();
        }
    }

    /// A sector was read.
    pub(crate) fn count_read(&mut self) {
        self.read = self.read.saturating_add(512);
        self.pass(512);
    }

    /// A sector was written.
    pub(crate) fn count_written(&mut self) {
        self.written = self.written.saturating_add(512);
        self.pass(512);
    }

    /// So many bytes were heard.
    pub(crate) fn count_heard(&mut self, bytes: u64) {
        self.heard = self.heard.saturating_add(bytes);
        self.pass(bytes);
    }

    /// So many bytes were told.
    pub(crate) fn count_told(&mut self, bytes: u64) {
        self.told = self.told.saturating_add(bytes);
        self.pass(bytes);
    }

    /// Wipes the line, where one was drawn.
    pub(crate) fn wipe(&mut self) {
        if self.is_drawn {
            let _ = write!(self.out, "\r\u{1b}[K");
        }
    }
}
