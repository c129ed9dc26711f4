// What the program says where its words aren't taken.

/// The usage: the pages, the statuses and two examples.
pub const USAGE: &str = "usage: vablook DEVICE [PAGE] [--json]\n\
    DEVICE is the image of a device in a file. It is read, and never written.\n\
    pages:\n\
    \u{20} status           its slots, their images, where an update stands; without a page too\n\
    \u{20} tables           the tables of both slots as they stand, with their copies\n\
    \u{20} stores           the stores of an update, and how full they are\n\
    \u{20} check            what is wrong, part by part, and what the next opening writes\n\
    \u{20} extract DIR      each image of the current slot into the new file DIR/NAME.img\n\
    \u{20}   --slot SLOT           of slot a or b\n\
    --json, in front of a page or behind it: an object of JSON a line.\n\
    statuses: 0 done, 2 the words aren't taken, 5 no device, 6 the disk failed,\n\
    \u{20} 7 the output failed or a file can't be written, 8 memory was refused,\n\
    \u{20} 9 the file can't be opened or is in use\n\
    examples:\n\
    \u{20} vablook dev.img check\n\
    \u{20} mkdir out && vablook dev.img extract out";
