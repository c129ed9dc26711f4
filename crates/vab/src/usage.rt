// What the program says where its words aren't taken.

/// The usage: the verbs, their options with their ranges, the statuses and two examples.
pub const USAGE: &str = "usage: vab DEVICE VERB\n\
    DEVICE is the image of a device in a file, or mem:N for N sectors of zeros in memory.\n\
    verbs:\n\
    \u{20} make             make a device of the set of images on the input, in slot a\n\
    \u{20}   --limit BYTES         limit of the partitions' group, 0 to 2^44, 0 for none\n\
    \u{20}   --metadata-max BYTES  most bytes of a copy of a table, 512 to 65536, by 512\n\
    \u{20} adopt SLOT       make a device of a super that others wrote, by slot a's or b's table\n\
    \u{20} serve            a fastboot session over TCP framing on the input and the output\n\
    \u{20}   --fresh               make a device without images first\n\
    \u{20}   --turns N             turns of a merge behind each reply, 0 to 2^32 - 1\n\
    \u{20} install          install the set of images on the input in the slot that isn't running\n\
    \u{20} boot             boot the slot of the highest priority\n\
    \u{20} mark             mark the current slot as one that works\n\
    \u{20} begin-merge      begin to merge the update that runs\n\
    \u{20} merge N          take N turns of the merge, a block or its end each, 1 to 2^32 - 1\n\
    \u{20} cancel           drop the update that is installed or ready\n\
    \u{20} activate SLOT    make slot a or b the one to boot next\n\
    \u{20} print NAME       the bytes of a partition, as system_a\n\
    \u{20} digest NAME      their SHA-256\n\
    \u{20} status           its slots, their images, and where an update stands\n\
    \u{20} demo SEED        make a device of images drawn from a number, and update it\n\
    \u{20}   --scale K             K times as many blocks, 1 to 64\n\
    statuses: 0 done, 2 the words aren't taken, 3 the input is malformed, 4 refused,\n\
    \u{20} 5 no device, 6 the disk failed, 7 the input or the output failed,\n\
    \u{20} 8 memory was refused, 9 the file can't be opened or is in use\n\
    examples:\n\
    \u{20} vabpack system=system.img | vab dev.img make\n\
    \u{20} vab dev.img print system_a >system.img";
