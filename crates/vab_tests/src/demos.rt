// The whole life of a device, by one verb.

use crate::runs::{SECTORS, Step, steps, words};
use std::process::Abort;
use std::test::Fail;

// What seed 7 tells on 256 blocks: drawn, counted and digested by another program.
const SEVEN: &[u8] = b"made 4 images, 66 of 256 blocks\n\
    installed 4 images, left 27\nbooted b\nmarked b\nmerging, left 27\n\
    left 20\nleft 13\nleft 6\nmerged\n\
    digest odm_b 579069040e6a7eaaaede41efb44beadd2745d7d2f5416b02766d5a894c7d6ff9\n\
    digest product_b 5c1456efa0c982ace4051602a6428e1a7277d04b6bc8afe6869c7db6607c8ac6\n\
    digest system_b 596653436ff0ecffca4ddf29bbdacd542d2e669ea2debb8003302aebdaa54133\n\
    digest vendor_b be33e7dff29eb102daec135b10d95089ff31528a710194d288cf55b577299e9f\n";

#[test]
fn a_demo_tells_the_life_of_a_device(rt: HostRuntime) -> Result<(), Fail> {
    let merged: &[u8] = b"refused: no merge is in progress\n";
    let cases: [Step; 8] = [
        (&["demo", "7"], b"", 0, SEVEN),
        (&["merge", "1"], b"", 4, merged),
        (&["demo", "7", "--scale", "1"], b"not heard", 0, SEVEN),
        (
            &["demo", "7", "--scale", "16"],
            b"",
            4,
            b"refused: no room: 960 of 256 blocks\n",
        ),
        (&["demo"], b"", 2, b""),
        (&["demo", "18446744073709551616"], b"", 2, b""),
        (&["demo", "7", "--scale", "0"], b"", 2, b""),
        (&["demo", "7", "--scale", "65"], b"", 2, b""),
    ];
    steps(&rt, rt.alloc(), SECTORS, &cases)?;
    steps(
        &rt,
        rt.alloc(),
        6151,
        &[(&["demo", "7"], b"", 5, b"not a device\n")],
    )?;
    Ok(())
}

// The lines of an update that is refused, since its stores have no room.
#[test]
fn a_demo_stops_where_its_update_is_refused(rt: HostRuntime) -> Result<(), Fail> {
    let told: &[u8] = b"made 4 images, 66 of 99 blocks\nrefused: no room: 113 of 99 blocks\n";
    let cases: [Step; 1] = [(&["demo", "7"], b"", 4, told)];
    steps(&rt, rt.alloc(), 6144 + 8 * 99, &cases)?;
    Ok(())
}
