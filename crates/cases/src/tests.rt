// Numbers behind words and behind none; the values are counted by hand.
use crate::{behind, knows};

#[test]
fn numbers_behind_words(rt: HostRuntime) {
    let line = b"tank 3;heat 71 72 flow 5 - 8;ab 1";
    assert_eq!(rt; behind(line, 0, b"tank", 1, 9), 3);
    assert_eq!(rt; behind(line, 1, b"heat", 2, 9), 72);
    assert_eq!(rt; behind(line, 1, b"flow", 3, 9), 8);
    assert_eq!(rt; behind(line, 1, b"flow", 2, 9), 9);
    assert_eq!(rt; behind(line, 1, b"tank", 1, 9), 9);
    assert_eq!(rt; behind(line, 2, b"ab", 1, 9), 1);
    assert!(rt; knows(line, 1, b"heat flow "));
    assert!(rt; !knows(line, 1, b"heat "));
}

// The blanks and semicolons since the last letter are counted, in whatever field that stands; before the first letter they count from 1.
#[test]
fn numbers_behind_no_word(rt: HostRuntime) {
    assert_eq!(rt; behind(b"x 5;7", 1, b"", 2, 9), 7);
    assert_eq!(rt; behind(b"x 5;7", 1, b"", 1, 9), 9);
    assert_eq!(rt; behind(b"b;8 6", 1, b"", 1, 9), 8);
    assert_eq!(rt; behind(b"4 a 5", 0, b"", 1, 9), 4);
    assert_eq!(rt; behind(b"4;a 5", 1, b"", 1, 9), 9);
    assert_eq!(rt; behind(b"a ;;-;2", 3, b"", 4, 9), 2);
}
