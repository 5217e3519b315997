//! The worked words of the format.

use store_word::{CdrCode, Levels, Word};

#[test]
fn worked_words(rt: HostRuntime) {
    for (word, bits) in [
        (Word::null(), 0),
        (Word::fixnum(5).with_cdr(CdrCode::Normal), 0x9_0000_0005),
        (Word::fixnum(-1), 0x1_ffff_ffff),
        (Word::nil().with_cdr(CdrCode::Nil), 0x4_1000_0000),
        (Word::list_at(4096).with_cdr(CdrCode::Second), 0xc_2000_1000),
        (Word::struct_at(0xfff_ffff), 0x3fff_ffff),
        (Word::header(9, 2), 0x4000_4802),
        (Word::header_forward(1), 0x5000_0001),
        (Word::gc_forward(2), 0x6000_0002),
    ] {
        assert!(rt; word.bits() == bits);
    }
    for bits in [
        0x10_0000_0000,
        0x2_0000_0000,
        0x3_0000_0000,
        0x7000_0000,
        0xf000_0000,
        0x0000_0001,
        0x1000_0001,
        0x4800_0000,
    ] {
        assert!(rt; Word::read_bits(bits).is_none(), "{bits} is no word");
    }
    for (bits, some) in [(0, true), (63, true), (64, false), (255, false)] {
        assert!(rt; Levels::from_bits(bits).is_some() == some, "at {bits}");
    }
}
