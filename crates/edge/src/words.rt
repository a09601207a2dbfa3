// The system's words for an error, as `perror` has them.
use std::fmt;
use std::fmt::Write;
use std::io::Error;

// The system's longest words have fewer bytes, and with the number that std puts behind them too.
const ROOM: usize = 128;

// What was written into it, as far as there is room.
#[derive(Drop)]
pub(crate) struct Words {
    bytes: [u8; ROOM],
    len: usize,
}

impl Write for Words {
    fn write_str(&mut self, s: &str) -> fmt::Result {
        for b in s.as_bytes() {
            if self.len < ROOM {
                self.bytes[self.len] = *b;
                self.len += 1;
            }
        }
        Ok(())
    }
}

impl Words {
    pub(crate) fn of(error: Error) -> Words {
        let mut all = Words {
            bytes: [0; ROOM],
            len: 0,
        };
        let _whole = write!(all, "{error}");
        all
    }

    // Without what std puts behind the words: a blank, and the number in brackets. The system's own
    // words have no bracket.
    pub(crate) fn text(&self) -> &[u8] {
        let all = &self.bytes[..self.len.min(ROOM)];
        match all.iter().skip(1).position(|&b| b == b'(') {
            Some(n) => &all[..n],
            None => all,
        }
    }
}
