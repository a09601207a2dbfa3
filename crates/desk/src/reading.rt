// The input buffer: the bytes of the unfinished line are at its front, and a read puts more behind
// them.

// A longer line is not understood (D1.5).
pub(crate) const LINE_MOST: usize = 262_144;

// How much one read asks for.
const CHUNK: usize = 65_536;

#[derive(Drop)]
pub(crate) struct Input {
    bytes: [u8; LINE_MOST + 1 + CHUNK],
    len: usize,
}

impl Input {
    pub(crate) fn new() -> Input {
        Input {
            bytes: [0; LINE_MOST + 1 + CHUNK],
            len: 0,
        }
    }

    // How many bytes are held.
    pub(crate) fn len(&self) -> usize {
        self.len
    }

    // The bytes that are held.
    pub(crate) fn bytes(&self) -> &[u8] {
        &self.bytes[..self.len.min(self.bytes.len())]
    }

    // Reads once behind the bytes that are held; false at the end of the input, and where it cannot
    // be read on (D1.9).
    pub(crate) fn read_more(&mut self, rt: HostRuntime) -> bool {
        if self.len > LINE_MOST + 1 {
            return false;
        }
        match edge::read(rt, &mut self.bytes[self.len..self.len + CHUNK]) {
            Ok(n) if n > 0 => {
                self.len += n;
                true
            }
            _ => false,
        }
    }

    // Keeps the last n bytes, which are those of the unfinished line, at the front. Of a line that
    // is too long one byte too many is held, whatever comes (D1.5).
    pub(crate) fn keep(&mut self, n: usize) {
        let start = self.len.saturating_sub(n).min(self.bytes.len());
        let len = n.min(LINE_MOST + 1).min(self.bytes.len() - start);
        self.bytes.copy_within(start..start + len, 0);
        self.len = len;
    }
}
