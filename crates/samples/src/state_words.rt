// States in words: of the setting, the case's words, and what the case says that the order changes.
use protocol::Registers;
use semaphore::Semaphore;
use states::Held;

// The last words that tell a state: those of the setting, the case's words, what the case says that the order changes.
pub const USUAL: usize = 1;

pub const GIVEN: usize = 2;

pub const LEFT: usize = 3;

// The nth number behind a word: of the setting, the case and the changes the last one that has it.
pub fn value(setting: &[u8], line: &[u8], last: usize, word: &[u8], nth: usize) -> u16 {
    let usual = cases::behind(setting, 3, word, nth, 0);
    if last == USUAL {
        return usual;
    }
    let given = cases::behind(line, 2, word, nth, usual);
    if last == GIVEN {
        return given;
    }
    cases::behind(line, 3, word, nth, given)
}

pub fn byte_value(setting: &[u8], line: &[u8], last: usize, word: &[u8], nth: usize) -> u8 {
    (value(setting, line, last, word, nth) % 256) as u8
}

fn registers_in_words(setting: &[u8], line: &[u8], last: usize, nth: usize) -> Registers {
    Registers {
        mode: byte_value(setting, line, last, b"mode", nth),
        counter: value(setting, line, last, b"counter", nth),
        offset: value(setting, line, last, b"offset", nth),
        depth: byte_value(setting, line, last, b"depth", nth),
        count: value(setting, line, last, b"count", nth),
        exchange: value(setting, line, last, b"exchange", nth),
        cycles: value(setting, line, last, b"cycles", nth),
        flags: byte_value(setting, line, last, b"flags", nth),
        time: value(setting, line, last, b"time", nth) as u32,
    }
}

fn semaphore_in_words(setting: &[u8], line: &[u8], last: usize) -> Semaphore {
    let entries = [
        byte_value(setting, line, last, b"line", 1),
        byte_value(setting, line, last, b"line", 2),
        byte_value(setting, line, last, b"line", 3),
        byte_value(setting, line, last, b"line", 4),
    ];
    Semaphore {
        holder: byte_value(setting, line, last, b"holder", 1),
        waiting: byte_value(setting, line, last, b"waiting", 1),
        line: entries,
    }
}

pub fn state_in_words(setting: &[u8], line: &[u8], last: usize) -> Held {
    let semaphore = semaphore_in_words(setting, line, last);
    let cores = [
        registers_in_words(setting, line, last, 1),
        registers_in_words(setting, line, last, 2),
        registers_in_words(setting, line, last, 3),
        registers_in_words(setting, line, last, 4),
    ];
    let mut places = [0u16; 64];
    let mut offsets = [0u16; 64];
    places[0] = value(setting, line, last, b"return", 1);
    offsets[0] = value(setting, line, last, b"return", 2);
    Held {
        count: byte_value(setting, line, last, b"table", 1),
        semaphore,
        cores,
        places,
        offsets,
    }
}
