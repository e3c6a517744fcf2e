//! Words that were worked out by hand from the tables of the formats.
use plat_base::{Copies, Frame, State};
use plat_words::*;
use std::process::Abort;

/// A copy on module 0 in frame 0, and one on module 1 in frame 1.
fn two_copies() -> Copies {
    Copies::none()
        .with(Frame {
            module: 0,
            number: 0,
        })
        .with(Frame {
            module: 1,
            number: 1,
        })
}

#[test]
fn words_of_directories_are_read(rt: HostRuntime) {
    let found = DirWord::decode(2 + 256 + 512 + 4_194_304);
    let is_read = found.is_some_and(|x| {
        x.state == State::PresentPlus && !x.frozen && !x.locked && x.copies == two_copies()
    });
    assert!(rt; is_read);
    assert!(rt; DirWord::decode(16).is_none() && DirWord::decode(65_536).is_none());
}

#[test]
fn words_are_written(rt: HostRuntime) {
    let mask = CmapWord {
        reference: 7,
        invalidate: 5,
        restrict: 2,
    };
    assert!(rt; mask.encode() == 132_359 && CmapWord::decode(16_777_216).is_none());
    let stamp = StampWord {
        last: Some(5),
        seq: 4,
    };
    let word = DataWord {
        value: 5,
        version: 1,
    };
    let pool = PoolWord { free: 14 };
    let data = pool.encode() == 14 && word.encode() == 4_294_967_301;
    assert!(rt; stamp.encode() == 17_179_869_190 && data);
}
